// What every layer shares: the definitions in specs/, their laws in proofs/, and clearing a lent table.
#![tactic(auto)]

ghost use Rattle.std.specs.Prelude.{◌≡◌, length};
ghost use Rattle.tables.specs.Tables.{zeros};

// Zeros throughout, in a table of 32-bit numbers.
pub fn clear(t: &mut [u32])
    ensures { t.new ≡ zeros (length t.old) }
{
    t.fill(0);
}

// Zeros throughout, in a work table, whose entries are 64-bit numbers. A function of its own: one over both widths would take a
// trait for their zero, and is no plainer than the one line.
pub fn clear_work(work: &mut [u64])
    ensures { work.new ≡ zeros (length work.old) }
{
    work.fill(0);
}
