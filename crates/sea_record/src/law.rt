//! What holds of all records.
ghost use Rattle.std.specs.Prelude.{◌≡◌, ℕ, ◌*◌, ◌++◌, List, length, slice_range};
ghost use Rattle.sea_record.specs.declared.record.Record.{Record};
ghost use Rattle.sea_record.specs.Record.{IsRecord, blocks, own_digest, record_bytes};

/// The spelling of a record tells the record, whatever stands behind it: so no spelling begins
/// another. It takes whole blocks, and the record's digest stands in it.
pub fn spelling_laws()
    ensures apart { (r s : Record) (x y : List ℕ) → IsRecord r → IsRecord s →
        record_bytes r ++ x ≡ record_bytes s ++ y → (r ≡ s) × (x ≡ y) }
    ensures whole { (r : Record) → IsRecord r → length (record_bytes r) ≡ 4096 * blocks r.body }
    ensures digest { (r : Record) (x : List ℕ) → IsRecord r →
        slice_range (record_bytes r ++ x) 144 176 ≡ own_digest r }
{}
