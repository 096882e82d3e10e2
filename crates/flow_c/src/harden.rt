// The hardened form of a table.
ghost use Rattle.entries.specs.Promises.{Hardens};

// Writes the hardened form of a table into a lent buffer.
#[unsafe(no_mangle)]
pub extern "C" fn flow_harden(table: &[u8], out: &mut [u8], answer: &mut [u8]) -> u64
    ensures { Hardens table.now out.old answer.old result out.new answer.new }
{
    flow::harden::flow_harden(table, &mut *out, &mut *answer)
}
