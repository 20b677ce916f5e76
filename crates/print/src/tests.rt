// What is said of a book that can't be read, or is refused: it ends the program, so it is tried here and not in its input.
use crate::failure::Failure;
use crate::input::read_book;
use std::alloc::{AllocError, Global};
use std::process::Abort;
use std::test::Fail;

const OPENED: &str = "limits 2 20 4 10\nwidths space 4 i 3 l 3 others 6\nwidth 30\nrows 3\n";

// On standard error, and behind it on standard output.
fn text_of(heap: Global, failure: Failure) -> Result<String, AllocError> {
    match failure.answer() {
        Some(denied) => format!(in heap; "{failure}, {denied}"),
        None => format!(in heap; "{failure}"),
    }
}

// Nothing where there is a book.
fn told(heap: Global, input: &str) -> Result<String, AllocError> {
    match read_book(heap, input.as_bytes()) {
        Ok(_) => Ok(String::new(heap)),
        Err(failure) => text_of(heap, failure),
    }
}

fn check_told(rt: &impl Abort, heap: Global, input: &str, what: &str) -> Result<(), Fail> {
    assert_eq!(rt; told(heap, input)?.as_str(), what);
    Ok(())
}

// The same behind the four lines of an opening.
fn check_opened(rt: &impl Abort, heap: Global, input: &str, what: &str) -> Result<(), Fail> {
    let input = format!(in heap; "{OPENED}{input}")?;
    check_told(rt, heap, input.as_str(), what)
}

#[test]
fn books_begin_with_an_opening(rt: HostRuntime) -> Result<(), Fail> {
    let heap = rt.alloc();
    check_told(&rt, heap, "", "line 1: the line text is missing")?;
    check_told(
        &rt,
        heap,
        "# no book\n\n",
        "line 3: the line text is missing",
    )?;
    check_told(&rt, heap, "\ntext\n", "line 2: this line is not due here")?;
    check_told(&rt, heap, "limits 1 1 1", "line 1: a number is missing")?;
    check_told(
        &rt,
        heap,
        "limits 1 1 1 1\nwidths others 0\nwidth 30\nrows 3\ntext\n",
        "line 4: the opening is refused, refused 3 at 2",
    )
}

#[test]
fn only_definitions_stand_before_the_text(rt: HostRuntime) -> Result<(), Fail> {
    let heap = rt.alloc();
    check_opened(&rt, heap, "", "line 5: the line text is missing")?;
    check_opened(&rt, heap, "# a remark\n\ntext  \n", "")?;
    check_opened(
        &rt,
        heap,
        "put 0 a\ntext\n",
        "line 5: this line is not due here",
    )?;
    check_opened(
        &rt,
        heap,
        "limits 1 1 1 1",
        "line 5: this line is not due here",
    )?;
    check_opened(&rt, heap, "Text", "line 5: no such line")?;
    check_opened(
        &rt,
        heap,
        "\ndefine 7 a\ntext\n",
        "line 6: the definition is refused, refused 2 at 0",
    )
}

#[test]
fn a_fault_is_told_with_where_its_paragraph_begins(rt: HostRuntime) -> Result<(), Fail> {
    let heap = rt.alloc();
    check_opened(&rt, heap, "text\r\na\r\n\r\nb\r\n", "")?;
    check_opened(&rt, heap, "text\n\na\nb{", "line 7: a brace opens nothing")?;
    check_opened(
        &rt,
        heap,
        "text\na\n\n\nb\n\\m1;\n\nc",
        "line 9: the paragraph is refused, refused 2 at 0",
    )?;
    check_opened(
        &rt,
        heap,
        "text\na\n\nb\n\nc",
        "line 10: the paragraph is refused, refused 6 at 0",
    )?;
    check_opened(
        &rt,
        heap,
        "text\nabcdef\nghij",
        "line 6: the paragraph is refused, refused 6 at 0",
    )
}
