//! Clients.
ghost use Rattle.std.specs.Prelude.{◌≡◌, ℕ, MatchOption};
ghost use Rattle.std.specs.Fmt.{decimal};
ghost use Rattle.sea_script.specs.Script.{IsClient};

use crate::word::number_of;
use sea_history::CLIENTS;

/// The client that a word names.
pub fn client_of(word: &[u8]) -> Option<u32>
    ensures { MatchOption result
        ((client : ℕ) → IsClient client → word.now ≡ decimal client → ⊥)
        (λ client. IsClient client × (word.now ≡ decimal client)) }
{
    let number = number_of(word)?;
    if 1 <= number && number <= CLIENTS {
        Some(number)
    } else {
        None
    }
}
