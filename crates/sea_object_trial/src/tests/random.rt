//! Operations at random, as they stand in a script.

use crate::tests::dice::Dice;
use std::alloc::{AllocError, Global};
use std::fmt::Write;

// Each operation with a letter for each word that is drawn.
const FORMS: [&str; 22] = [
    "touch N",
    "write N O X",
    "write N O X",
    "zero N O B",
    "truncate N O",
    "remove N",
    "setattr N K X",
    "setattr N K X",
    "rmattr N K",
    "rmattrs N",
    "omap_setkeys N K X K X K X",
    "omap_rmkeys N K K",
    "omap_rmkeyrange N K K B",
    "omap_clear N",
    "read N O B",
    "stat N",
    "getattr N K",
    "getattrs N",
    "omap_get N K",
    "omap_list N B",
    "omap_list N B K",
    "list B N",
];

const NAMES: [&str; 6] = ["a", "a%00", "a%20b", "b", "%ff", "%3b%25"];

/// Up to four operations.
pub fn operations(alloc: Global, dice: &mut Dice) -> Result<Vec<String>, AllocError> {
    let mut all = Vec::new(alloc);
    for _ in 0..1 + dice.below(4) {
        all.push(operation(alloc, dice)?)?;
    }
    Ok(all)
}

fn operation(alloc: Global, dice: &mut Dice) -> Result<String, AllocError> {
    let form = FORMS[dice.below(22) as usize];
    let mut text = String::new(alloc);
    for letter in form.as_bytes() {
        match *letter {
            b'N' | b'K' => text.push_str(NAMES[dice.below(6) as usize])?,
            b'O' => push_number(&mut text, 4 * dice.below(6))?,
            b'B' => push_number(&mut text, 1 + dice.below(8))?,
            b'X' => push_data(&mut text, dice)?,
            other => text.push(char::from(other))?,
        }
    }
    Ok(text)
}

fn push_number(text: &mut String, number: u64) -> Result<(), AllocError> {
    write!(text, "{number}")
}

// One to three bytes.
fn push_data(text: &mut String, dice: &mut Dice) -> Result<(), AllocError> {
    text.push('x')?;
    for _ in 0..1 + dice.below(3) {
        let byte = dice.below(256);
        write!(text, "{byte:02x}")?;
    }
    Ok(())
}
