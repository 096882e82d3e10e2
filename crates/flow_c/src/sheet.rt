// The label sheet of a table.
ghost use Rattle.entries.specs.Promises.{Sheets};

// Writes the label sheet of a table into a lent buffer.
#[unsafe(no_mangle)]
pub extern "C" fn flow_sheet(table: &[u8], sheet: &mut [u8], answer: &mut [u8]) -> u64
    ensures { Sheets table.now sheet.old answer.old result sheet.new answer.new }
{
    flow::sheet::flow_sheet(table, &mut *sheet, &mut *answer)
}
