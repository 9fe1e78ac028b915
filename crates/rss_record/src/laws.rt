// The law of the records' bytes.
ghost use Rattle.std.specs.Prelude.{◌≡◌, ◌++◌, ℕ, List};
ghost use Rattle.rss_base.specs.LogRecords.{record_bytes, IsSpellable};
ghost use Rattle.rss_base.specs.declared.log_record.LogRecord.{LogRecord as SomeRecord};

/// No record is a prefix of another: bytes begin with one record at most, and what was written is
/// read again, whatever follows it.
pub fn prefix_free()
    ensures { (r s : SomeRecord) (rest others : List ℕ) → IsSpellable r → IsSpellable s
        → record_bytes r ++ rest ≡ record_bytes s ++ others → (r ≡ s) × (rest ≡ others) }
{}
