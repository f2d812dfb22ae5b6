// The digest of a memory.
ghost use Rattle.std.specs.Prelude.{◌≡◌, ◌+◌, ◌*◌, ◌^◌, ◌≤◌, length, slice_index};
ghost use Rattle.merkle.specs.Tree.{node, root, node_preimages};
ghost use Rattle.merkle.specs.Seen.{seen_all};

use crate::preimage::{pair_digest, word_digest};
use crate::{Digest, Digester};

// The word at an index, 0 beyond the memory's end.
pub(crate) fn word_at(memory: &[u32], index: usize) -> u32
    ensures { result ≡ slice_index memory.now index }
{
    memory.get(index).copied().unwrap_or(0)
}

// The digest of node `index` of a level.
pub(crate) fn node_digest<D: Digester>(
    digester: &mut D,
    memory: &[u32],
    level: u32,
    index: usize,
) -> Digest
    requires { (index + 1) * 2 ^ level ≤ 65536 }
    ensures value { result ≡ node D.hash level index memory.now }
    ensures seen { D.seen digester.new ≡ seen_all D.adds (D.seen digester.old) (node_preimages D.hash level index memory.now) }
{
    if level == 0 {
        return word_digest(digester, word_at(memory, index));
    }
    let left = node_digest(digester, memory, level - 1, 2 * index);
    let right = node_digest(digester, memory, level - 1, 2 * index + 1);
    pair_digest(digester, &left, &right)
}

// The digest of a memory of 65,536 words, of which those beyond the slice are 0.
pub fn memory_digest<D: Digester>(digester: &mut D, memory: &[u32]) -> Digest
    ensures value { result ≡ root D.hash memory.now }
    ensures seen { D.seen digester.new ≡ seen_all D.adds (D.seen digester.old) (node_preimages D.hash 16 0 memory.now) }
    ensures count { length (node_preimages D.hash 16 0 memory.now) ≡ 131071 }
{
    node_digest(digester, memory, 16, 0)
}
