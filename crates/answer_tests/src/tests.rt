use std::alloc::{AllocError, Global};
use std::process::Abort;
use std::test::Fail;
use text::Reader;

const OPENED: &str = "limits 4 100 4 50\nwidths space 4 i 3 l 3 others 6\nwidth 30\nrows 3\n";

// The first line at fault with what is wrong, as the program tells it; nothing where all lines are right.
fn told(heap: Global, lines: &str) -> Result<String, AllocError> {
    let mut reader = Reader::new();
    for (number, line) in (1u64..).zip(lines.lines()) {
        if let Err(fault) = reader.read(heap, line.as_bytes()) {
            return format!(in heap; "line {number}: {fault}");
        }
    }
    Ok(String::new(heap))
}

fn check_told(rt: &impl Abort, heap: Global, lines: &str, what: &str) -> Result<(), Fail> {
    assert_eq!(rt; told(heap, lines)?.as_str(), what);
    Ok(())
}

// The same of a line in an open book.
fn check_call(rt: &impl Abort, heap: Global, line: &str, what: &str) -> Result<(), Fail> {
    let lines = format!(in heap; "{OPENED}{line}")?;
    check_told(rt, heap, lines.as_str(), what)
}

#[test]
fn books_begin_in_order(rt: HostRuntime) -> Result<(), Fail> {
    let heap = rt.alloc();
    check_told(&rt, heap, "", "")?;
    check_told(&rt, heap, "# only this\n\n", "")?;
    check_told(&rt, heap, OPENED, "")?;
    check_told(&rt, heap, "nothing of this", "line 1: no such line")?;
    check_told(&rt, heap, "\nwidth 30", "line 2: this line is not due here")?;
    check_told(&rt, heap, "how many", "line 1: this line is not due here")?;
    check_told(
        &rt,
        heap,
        "limits 1 1 1 1\nrows 3",
        "line 2: this line is not due here",
    )
}

#[test]
fn opening_lines_are_whole(rt: HostRuntime) -> Result<(), Fail> {
    let heap = rt.alloc();
    check_told(&rt, heap, "limits 1 1 1", "line 1: a number is missing")?;
    check_told(&rt, heap, "limits 1 1 1 x", "line 1: a number is due here")?;
    check_told(
        &rt,
        heap,
        "limits 1 1 1 4294967296",
        "line 1: a number is too large",
    )?;
    check_told(
        &rt,
        heap,
        "limits 1 1 1 1 1",
        "line 1: the line goes on where it should end",
    )?;
    check_told(
        &rt,
        heap,
        "limits 1 1 1 1\nwidths ab 1",
        "line 2: a letter, space or others is due here",
    )?;
    check_told(
        &rt,
        heap,
        "limits 1 1 1 1\nwidths a 256",
        "line 2: a number is too large",
    )?;
    check_told(
        &rt,
        heap,
        "limits 1 1 1 1\nwidths a",
        "line 2: a number is missing",
    )
}

#[test]
fn calls_are_whole(rt: HostRuntime) -> Result<(), Fail> {
    let heap = rt.alloc();
    check_call(&rt, heap, "put 65535 a", "")?;
    check_call(&rt, heap, "put 65536 a", "line 5: a number is too large")?;
    check_call(&rt, heap, "put", "line 5: a number is missing")?;
    check_call(&rt, heap, "cut x", "line 5: a number is due here")?;
    check_call(
        &rt,
        heap,
        "cut 1 2",
        "line 5: the line goes on where it should end",
    )?;
    check_call(
        &rt,
        heap,
        "show 4294967296 0 1",
        "line 5: a number is too large",
    )?;
    check_call(&rt, heap, "show 0 0", "line 5: a number is missing")?;
    check_call(&rt, heap, "where was 1", "line 5: no such line")?;
    check_call(&rt, heap, "shuffle", "line 5: no such line")?;
    check_call(
        &rt,
        heap,
        "bytes 0",
        "line 5: two hexadecimal digits are due here",
    )?;
    check_call(
        &rt,
        heap,
        "bytes 00 0g",
        "line 5: two hexadecimal digits are due here",
    )
}

#[test]
fn tokens_are_whole(rt: HostRuntime) -> Result<(), Fail> {
    let heap = rt.alloc();
    check_call(
        &rt,
        heap,
        "put 0 \\note{a \\255{\\given}}\\m0;\\p255; \\\\\\{\\}",
        "",
    )?;
    check_call(
        &rt,
        heap,
        "put 0 \\x",
        "line 5: a backslash begins no token",
    )?;
    check_call(
        &rt,
        heap,
        "put 0 \\m7",
        "line 5: a backslash begins no token",
    )?;
    check_call(
        &rt,
        heap,
        "put 0 \\m256;",
        "line 5: a token's number is too large",
    )?;
    check_call(&rt, heap, "put 0 a{", "line 5: a brace opens nothing")?;
    check_call(&rt, heap, "put 0 a}", "line 5: a brace closes nothing")?;
    check_call(&rt, heap, "put 0 \\note{a", "line 5: a brace is not closed")
}
