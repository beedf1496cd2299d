//! Random requests, done on trees and on the map of objects.
ghost use Rattle.std.specs.Prelude.{◌<◌};

use crate::fault::TrialFault;
use crate::tests::dice::Dice;
use crate::tests::texts::requests_of;
use crate::tests::twin::Twin;
use sea_base::Nths;
use std::alloc::{AllocError, Global};
use std::fmt::Write;

// Each operation with a letter for each word that is drawn: a name, a key, an offset, a length, a bound,
// a value, and bytes.
const FORMS: [&str; 32] = [
    "touch N",
    "touch N",
    "setattr N K V",
    "setattr N K V",
    "setattr N K V",
    "setattr N K V",
    "rmattr N K",
    "rmattrs N",
    "omap_setkeys N K V",
    "omap_setkeys N K V K V",
    "omap_setkeys N K V K V K V K V",
    "omap_setkeys N K V K V K V K V K V K V",
    "omap_rmkeys N K",
    "omap_rmkeys N K K K",
    "omap_clear N",
    "omap_rmkeyrange N K K B",
    "omap_rmkeyrange N K K B",
    "write N O X",
    "write N O X",
    "write N O X",
    "zero N O L",
    "zero N O L",
    "truncate N O",
    "truncate N O",
    "remove N",
    "read N O L",
    "stat N",
    "getattr N K",
    "getattrs N",
    "omap_get N K",
    "omap_list N B K",
    "list B N",
];

const NAMES: [&str; 6] = ["a", "a%00", "a%20b", "b", "%ff", "%3b%25"];

const VALUES: [u64; 8] = [1, 2, 5, 9, 9, 33, 65, 1025];

const LENGTHS: [u64; 8] = [1, 2, 64, 100, 1000, 4095, 4096, 4097];

// So many requests of up to four operations, as a script.
fn script_of(alloc: Global, dice: &mut Dice, count: u32) -> Result<String, AllocError> {
    let mut script = String::new(alloc);
    for _ in 0..count {
        script.push('1')?;
        let mut before = " ";
        for _ in 0..1 + dice.below(4) {
            script.push_str(before)?;
            push_operation(&mut script, dice)?;
            before = " ; ";
        }
        script.push('\n')?;
    }
    Ok(script)
}

fn push_operation(script: &mut String, dice: &mut Dice) -> Result<(), AllocError> {
    let form = FORMS[dice.below(32) as usize];
    for letter in form.as_bytes() {
        match *letter {
            b'N' => script.push_str(NAMES[dice.below(6) as usize])?,
            b'K' => write!(script, "k{:02}", dice.below(80))?,
            b'O' => write!(script, "{}", offset(dice))?,
            b'L' => write!(script, "{}", LENGTHS[dice.below(8) as usize])?,
            b'B' => write!(script, "{}", 1 + dice.below(8))?,
            b'V' => {
                let below = VALUES[dice.below(8) as usize];
                push_bytes(script, dice, below)?;
            }
            b'X' => {
                let length = LENGTHS[dice.below(8) as usize];
                push_bytes(script, dice, length)?;
                script.push_str("41")?;
            }
            other => script.push(char::from(other))?,
        }
    }
    Ok(())
}

// An offset near the edge of one of the first blocks.
fn offset(dice: &mut Dice) -> u64 {
    (4096 * dice.below(4) + dice.below(5)).saturating_sub(2)
}

// One byte again and again, fewer than so many times.
fn push_bytes(script: &mut String, dice: &mut Dice, below: u64) -> Result<(), AllocError> {
    let byte = dice.below(256);
    script.push('x')?;
    for _ in 0..dice.below(below.max(1)) {
        write!(script, "{byte:02x}")?;
    }
    Ok(())
}

#[test]
fn random_requests_are_answered_as_by_a_map(rt: HostRuntime) -> Result<(), TrialFault> {
    let alloc = rt.alloc();
    for seed in 1..=4 {
        let mut dice = Dice::new(seed);
        let mut twin = Twin::new(alloc, Nths::new(alloc));
        let script = script_of(alloc, &mut dice, 500)?;
        for request in &requests_of(alloc, script.as_str())? {
            twin.serve(&rt, request)?;
            twin.check(&rt)?;
        }
    }
    Ok(())
}
