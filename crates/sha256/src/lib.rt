// SHA-256, as FIPS 180-4 defines it.
#![tactic(auto)]

ghost use Rattle.std.specs.Prelude.{◌≡◌, ◌-◌, ◌*◌, ◌%◌, ◌<◌, ◌∷◌, ◌++◌, length, take, replicate};
ghost use Rattle.std.specs.List.{flat_map};
ghost use Rattle.sha256.specs.Sha256.{ch, maj, Amount, Σ, σ, words, be32, be64, sha256, ending};
ghost use Rattle.sha256.specs.Sha256.{schedule as scheduled, round as rounded, compress as compressed, absorb as absorbed, hash};

// The first 32 bits of the fractional parts of the cube roots of the first 64 primes.
const ROUND_CONSTANTS: [u32; 64] = [
    0x428a_2f98,
    0x7137_4491,
    0xb5c0_fbcf,
    0xe9b5_dba5,
    0x3956_c25b,
    0x59f1_11f1,
    0x923f_82a4,
    0xab1c_5ed5,
    0xd807_aa98,
    0x1283_5b01,
    0x2431_85be,
    0x550c_7dc3,
    0x72be_5d74,
    0x80de_b1fe,
    0x9bdc_06a7,
    0xc19b_f174,
    0xe49b_69c1,
    0xefbe_4786,
    0x0fc1_9dc6,
    0x240c_a1cc,
    0x2de9_2c6f,
    0x4a74_84aa,
    0x5cb0_a9dc,
    0x76f9_88da,
    0x983e_5152,
    0xa831_c66d,
    0xb003_27c8,
    0xbf59_7fc7,
    0xc6e0_0bf3,
    0xd5a7_9147,
    0x06ca_6351,
    0x1429_2967,
    0x27b7_0a85,
    0x2e1b_2138,
    0x4d2c_6dfc,
    0x5338_0d13,
    0x650a_7354,
    0x766a_0abb,
    0x81c2_c92e,
    0x9272_2c85,
    0xa2bf_e8a1,
    0xa81a_664b,
    0xc24b_8b70,
    0xc76c_51a3,
    0xd192_e819,
    0xd699_0624,
    0xf40e_3585,
    0x106a_a070,
    0x19a4_c116,
    0x1e37_6c08,
    0x2748_774c,
    0x34b0_bcb5,
    0x391c_0cb3,
    0x4ed8_aa4a,
    0x5b9c_ca4f,
    0x682e_6ff3,
    0x748f_82ee,
    0x78a5_636f,
    0x84c8_7814,
    0x8cc7_0208,
    0x90be_fffa,
    0xa450_6ceb,
    0xbef9_a3f7,
    0xc671_78f2,
];

// The first 32 bits of the fractional parts of the square roots of the first eight primes.
const INITIAL: [u32; 8] = [
    0x6a09_e667,
    0xbb67_ae85,
    0x3c6e_f372,
    0xa54f_f53a,
    0x510e_527f,
    0x9b05_688c,
    0x1f83_d9ab,
    0x5be0_cd19,
];

fn choose(x: u32, y: u32, z: u32) -> u32
    ensures { result ≡ ch x y z }
{
    (x & y) ^ (!x & z)
}

fn majority(x: u32, y: u32, z: u32) -> u32
    ensures { result ≡ maj x y z }
{
    (x & y) ^ (x & z) ^ (y & z)
}

// Σ₀ and Σ₁ of the standard, by three rotations.
fn big_sigma<const A: u32, const B: u32, const C: u32>(x: u32) -> u32
    requires { Amount A × Amount B × Amount C }
    ensures { result ≡ Σ A B C x }
{
    x.rotate_right(A) ^ x.rotate_right(B) ^ x.rotate_right(C)
}

// σ₀ and σ₁ of the standard, by two rotations and a shift.
fn small_sigma<const A: u32, const B: u32, const C: u32>(x: u32) -> u32
    requires { Amount A × Amount B × Amount C }
    ensures { result ≡ σ A B C x }
{
    x.rotate_right(A) ^ x.rotate_right(B) ^ (x >> C)
}

// The sixteen words of a block, each with its high byte first.
fn block_words(block: &[u8; 64]) -> [u32; 16]
    ensures { result ≡ words 16 block.now }
{
    let (chunks, _) = block.as_chunks::<4>();
    let chunks = chunks.as_array::<16>().unwrap();
    let mut words = [0; 16];
    // Not by `map`, with which digesting took a tenth longer.
    for (t, word) in words.iter_mut().enumerate() {
        *word = u32::from_be_bytes(chunks[t]);
    }
    words
}

// The 64 words of the message schedule of a block.
fn schedule(block: &[u8; 64]) -> [u32; 64]
    ensures { result ≡ scheduled block.now }
{
    let mut w = [0; 64];
    w[..16].copy_from_slice(&block_words(block));
    // Each word is made of words before it, so this loop needs the index.
    for t in 16..64 {
        w[t] = small_sigma::<17, 19, 10>(w[t - 2])
            .wrapping_add(w[t - 7])
            .wrapping_add(small_sigma::<7, 18, 3>(w[t - 15]))
            .wrapping_add(w[t - 16]);
    }
    w
}

// One round on the eight working variables.
fn round(s: [u32; 8], k: u32, w: u32) -> [u32; 8]
    ensures { result ≡ rounded k w s }
{
    let [a, b, c, d, e, f, g, h] = s;
    let t1 = h
        .wrapping_add(big_sigma::<6, 11, 25>(e))
        .wrapping_add(choose(e, f, g))
        .wrapping_add(k)
        .wrapping_add(w);
    let t2 = big_sigma::<2, 13, 22>(a).wrapping_add(majority(a, b, c));
    [t1.wrapping_add(t2), a, b, c, d.wrapping_add(t1), e, f, g]
}

// The hash value after one more block.
fn compress(state: [u32; 8], block: &[u8; 64]) -> [u32; 8]
    ensures { result ≡ compressed state block.now }
{
    let w = schedule(block);
    let mut s = state;
    // Over a zip with the words, digesting took an eighth longer.
    for (t, k) in ROUND_CONSTANTS.iter().enumerate() {
        s = round(s, *k, w[t]);
    }
    // No zip with `state`: of what a zip over `iter_mut` has written a proof knows nothing.
    for (i, word) in s.iter_mut().enumerate() {
        *word = word.wrapping_add(state[i]);
    }
    s
}

// The words of a hash value as bytes, each with its high byte first.
fn to_bytes(state: [u32; 8]) -> [u8; 32]
    ensures { result ≡ flat_map be32 state }
{
    let mut out = [0; 32];
    out.copy_from_slice(state.map(u32::to_be_bytes).as_flattened());
    out
}

// What is left of a message, less than a block, with the 1 bit after it and zeros.
#[tactic(auto, using(crate::proofs::Blocks::padded_is))]
fn padded(rest: &[u8]) -> [u8; 64]
    requires { length rest.now < 64 }
    ensures { result ≡ rest.now ++ 128 ∷ replicate (63 - length rest.now) 0 }
{
    let mut block = [0; 64];
    block[0..rest.len()].copy_from_slice(rest);
    block[rest.len()] = 0x80;
    block
}

// The block with the length in bits of a message of `len` bytes at its end.
#[tactic(auto, using(crate::proofs::Blocks::with_length_is, crate::proofs::Blocks::be64_mod))]
fn with_length(mut block: [u8; 64], len: u64) -> [u8; 64]
    ensures { result ≡ take 56 block ++ be64 (len * 8) }
{
    block[56..64].copy_from_slice(&len.wrapping_mul(8).to_be_bytes());
    block
}

// The hash value of a message of `len` bytes, of which `rest` is what `state` has not taken in.
#[tactic(auto, using(crate::proofs::Blocks::one_block, crate::proofs::Blocks::two_blocks))]
fn finish(state: [u32; 8], rest: &[u8], len: u64) -> [u32; 8]
    requires { len % 64 ≡ length rest.now }
    ensures { result ≡ hash state (rest.now ++ ending len) }
{
    let last = padded(rest);
    if rest.len() < 56 {
        compress(state, &with_length(last, len))
    } else {
        let full = compress(state, &last);
        compress(full, &with_length([0; 64], len))
    }
}

// The hash value after these blocks more.
#[tactic(auto, unfolding(crate::specs::Sha256::absorb))]
fn absorb(start: [u32; 8], blocks: &[[u8; 64]]) -> [u32; 8]
    ensures { result ≡ absorbed start blocks.now }
{
    blocks.iter().fold(start, compress)
}

// The SHA-256 of these bytes.
pub fn digest(bytes: &[u8]) -> [u8; 32]
    ensures { result ≡ sha256 bytes.now }
{
    let (blocks, rest) = bytes.as_chunks::<64>();
    let state = absorb(INITIAL, blocks);
    to_bytes(finish(state, rest, bytes.len() as u64))
}
