// The joint between a machine and the dispute about its runs. It is definitions alone: specs/System.antt.
#![tactic(auto)]
