// What the types say, as facts that a contract can name. Nothing here does anything; a value is read where its range is only known then.
ghost use Rattle.std.specs.Prelude.{◌≡◌, ◌^◌, ◌<◌, true};
ghost use Rattle.merkle.specs.Bytes.{all_bytes, is_digest, all_digests};

use crate::Digest;

pub fn word(word: u32)
    ensures { word < 2 ^ 32 }
{}

fn bytes(bytes: &[u8])
    ensures { all_bytes bytes.now ≡ true }
{
    let _ = bytes.is_empty();
}

pub fn digest(digest: &Digest)
    ensures { is_digest digest.now ≡ true }
{
    bytes(digest);
}

pub fn digests(digests: &[Digest])
    ensures { all_digests digests.now ≡ true }
{
    for one in digests {
        digest(one);
    }
}
