//! Lines and their words.
ghost use Rattle.std.specs.Prelude.{◌≡◌, ◌↔◌, ◌≤◌, length, IsTrue, IfOk};
ghost use Rattle.std.specs.List.{AllByRecursion};
ghost use Rattle.sea_script.specs.Reading.{seen};
ghost use Rattle.sea_script.specs.Script.{IsBlank, IsPrinted, IsText, words};

use crate::parts::Parts;
use sea_base::NoMemory;
use std::alloc::Global;

/// Whether a line is empty, or a comment.
pub fn is_blank(line: &[u8]) -> bool
    ensures { IsTrue result ↔ IsBlank line.now }
{
    match line {
        [] => true,
        [first, ..] => *first == b'#',
    }
}

/// The words of a line, with one space between two.
pub fn words_of(alloc: Global, line: &[u8]) -> Result<Vec<&[u8]>, NoMemory>
    ensures { IfOk result (λ all. seen all.items ≡ words line.now) }
{
    let mut all = Vec::with_capacity(alloc, 16)?;
    let mut parts = Parts::new(b' ', line);
    while let Some(word) = parts.next() {
        all.push(word)?;
    }
    Ok(all)
}

/// Whether a line of these words has no other bytes than those that can be printed, and no empty
/// word.
pub fn is_text(line: &[u8], of: &[&[u8]]) -> bool
    requires { seen of.now ≡ words line.now }
    ensures { IsTrue result ↔ IsText line.now }
{
    are_printed(line) && none_is_empty(of)
}

fn are_printed(line: &[u8]) -> bool
    ensures { IsTrue result ↔ AllByRecursion IsPrinted line.now }
{
    for byte in line {
        if *byte < 32 || *byte > 126 {
            return false;
        }
    }
    true
}

fn none_is_empty(of: &[&[u8]]) -> bool
    ensures { IsTrue result ↔ AllByRecursion (λ word. 1 ≤ length word) (seen of.now) }
{
    for word in of {
        if word.is_empty() {
            return false;
        }
    }
    true
}
