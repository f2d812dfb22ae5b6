// Lines as they are read from an input.
use record::{Entry, Line, read_line};
use std::alloc::Global;
use std::process::Abort;
use std::test::Fail;

// The line is about this day.
fn is_day(rt: &impl Abort, heap: Global, line: &Line, wanted: u64) -> Result<(), Fail> {
    let entry = record::read(heap, line)?;
    assert!(rt; matches!(entry, Entry::Day(day) if day == wanted));
    Ok(())
}

// Line feeds end lines, and so does the end of the input; a line that is too long leaves the next one whole.
#[test]
fn lines_come_in_turn(rt: HostRuntime) -> Result<(), Fail> {
    let heap = rt.alloc();
    let mut bytes = vec![in heap; b'x'; 3000]?;
    bytes.extend_from_slice(b"\nday 1\r\nday 2")?;
    let mut input = bytes.as_slice();
    let mut line = Line::new(heap);
    assert!(rt; read_line::<_, Fail>(&mut input, &mut line)?);
    assert!(rt; matches!(record::read(heap, &line)?, Entry::Faulty(_)));
    assert!(rt; read_line::<_, Fail>(&mut input, &mut line)?);
    is_day(&rt, heap, &line, 1)?;
    assert!(rt; read_line::<_, Fail>(&mut input, &mut line)?);
    is_day(&rt, heap, &line, 2)?;
    assert!(rt; !read_line::<_, Fail>(&mut input, &mut line)?);
    Ok(())
}
