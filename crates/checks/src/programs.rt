// Published digests, programs and their lines.
use digests::Sha256;
use machine::{Cpu, Unwatched};
use merkle::Digester;
use std::alloc::{AllocError, Global};
use std::test::Fail;
use text::{hex, line, number, program};

fn sha256(heap: Global, bytes: &[u8]) -> Result<String, AllocError> {
    hex::encode(heap, &sha256::digest(bytes))
}

// The examples that FIPS 180-4 publishes.
#[test]
fn published_digests(rt: HostRuntime) -> Result<(), Fail> {
    let heap = rt.alloc();
    assert_eq!(rt;
        sha256(heap, b"")?.as_str(),
        "e3b0c44298fc1c149afbf4c8996fb92427ae41e4649b934ca495991b7852b855"
    );
    assert_eq!(rt;
        sha256(heap, b"abc")?.as_str(),
        "ba7816bf8f01cfea414140de5dae2223b00361a396177a9cb410ff61f20015ad"
    );
    assert_eq!(rt;
        sha256(
            heap,
            b"abcdbcdecdefdefgefghfghighijhijkijkljklmklmnlmnomnopnopq",
        )?
        .as_str(),
        "248d6a61d20638b8e5c026930c3e6039a33ce45964ff2167f6ecedd419db06c1"
    );
    assert_eq!(rt;
        sha256(
            heap,
            b"abcdefghbcdefghicdefghijdefghijkefghijklfghijklmghijklmnhijklmnoijklmnopjklmnopqklmnopqrlmnopqrsmnopqrstnopqrstu",
        )?
        .as_str(),
        "cf5b16a778af8380036ce59e7b0492370b249b11e8f07a51afac45037afee9d1"
    );
    let million = vec![in heap; b'a'; 1_000_000]?;
    assert_eq!(rt;
        sha256(heap, &million)?.as_str(),
        "cdc76e5c9914fb9281a1c7e284d73e67f1809a48a497200e046d39ccc7112cd0"
    );
    Ok(())
}

// Register 7 is stored at place 100, again and again.
const STORE: [u8; 12] = [0, 7, 0, 7, 0, 2, 0, 100, 0, 5, 0, 0];

fn after(heap: Global, file: &[u8], steps: u64) -> Result<String, Fail> {
    Ok(line::after(heap, file, steps, &mut Sha256, &mut Unwatched)?)
}

#[test]
fn lines(rt: HostRuntime) -> Result<(), Fail> {
    let heap = rt.alloc();
    assert_eq!(rt;
        after(heap, &STORE, 0)?.as_str(),
        "0 0 836b9fd1b66ef285504ca6cb1853a380561776e20e2c879f1844d87f866c0725"
    );
    assert_eq!(rt;
        after(heap, &STORE, 1)?.as_str(),
        "1 7 bd55984fb5646e0abd13bc5e33df578fdd3d71ad0db935f8ba6f19402fdcfe9d"
    );
    assert_eq!(rt;
        after(heap, &STORE, 3)?.as_str(),
        "0 7 fa7525a72555612f7532c2d2d0c833cca75f7f704563168351fd39d3296082bc"
    );
    assert_eq!(rt;
        after(heap, &[], 0)?.as_str(),
        "0 0 b232e62652a6d3dabd5de8688923479bb71c838f00907c882b8bcf845424934a"
    );
    assert_eq!(rt;
        after(heap, &[0, 0, 0, 0], 3)?.as_str(),
        "0 0 b232e62652a6d3dabd5de8688923479bb71c838f00907c882b8bcf845424934a"
    );
    assert_eq!(rt;
        after(heap, &[0, 0, 0, 0], 4_294_967_296)?.as_str(),
        "0 0 b232e62652a6d3dabd5de8688923479bb71c838f00907c882b8bcf845424934a"
    );
    Ok(())
}

#[test]
fn register_is_stored(rt: HostRuntime) -> Result<(), Fail> {
    let mut memory = program::load(rt.alloc(), &STORE)?;
    let cpu = machine::run(&mut memory, Cpu::default(), 3, &mut Unwatched).ok_or_else(|| Fail::new(
        "refused",
    ))?;
    let end = Cpu {
        place: 0,
        register: 7,
    };
    assert_eq!(rt; cpu, end);
    assert_eq!(rt; memory.get(100).copied(), Some(7));
    Ok(())
}

// A memory of another size is refused and left as it is.
#[test]
fn short_memory_is_refused(rt: HostRuntime) {
    let mut memory = [0x0007_0007, 1];
    let run = machine::run(&mut memory, Cpu::default(), 1, &mut Unwatched);
    assert!(rt; run.is_none());
    assert_eq!(rt; memory, [0x0007_0007, 1]);
}

fn refusal(heap: Global, file: &[u8]) -> Option<u8> {
    program::load(heap, file).err()?.number()
}

#[test]
fn bad_files_are_refused(rt: HostRuntime) -> Result<(), Fail> {
    let heap = rt.alloc();
    let largest = vec![in heap; 0; 262_144]?;
    let larger = vec![in heap; 0; 262_148]?;
    assert_eq!(rt; refusal(heap, &largest), None);
    assert_eq!(rt; refusal(heap, &larger), Some(5));
    assert_eq!(rt; refusal(heap, &[1, 2, 3]), Some(5));
    assert_eq!(rt; refusal(heap, &[1, 2, 3, 4, 5]), Some(5));
    Ok(())
}

#[test]
fn numbers(rt: HostRuntime) {
    assert_eq!(rt; number::parse(b"0", 9), Some(0));
    assert_eq!(rt; number::parse(b"00042", 42), Some(42));
    assert_eq!(rt; number::parse(b"43", 42), None);
    assert_eq!(rt;
        number::parse(b"18446744073709551615", u64::MAX),
        Some(u64::MAX)
    );
    assert_eq!(rt; number::parse(b"18446744073709551616", u64::MAX), None);
    assert_eq!(rt; number::parse(b"99999999999999999999999", u64::MAX), None);
    assert_eq!(rt; number::parse(b"", 9), None);
    assert_eq!(rt; number::parse(b"+1", 9), None);
    assert_eq!(rt; number::parse(b"-1", 9), None);
    assert_eq!(rt; number::parse(b"1 ", 9), None);
    assert_eq!(rt; number::parse(b"/", 9), None);
    assert_eq!(rt; number::parse(b":", 9), None);
}
