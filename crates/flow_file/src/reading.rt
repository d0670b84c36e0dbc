//! The items of a flow file.
ghost use Rattle.std.specs.Prelude.{◌≡◌, map, IfOk};
ghost use Rattle.flow_file.specs.Item.{flow_items};
ghost use Rattle.flow_file.specs.Views.{item};

use crate::FlowLine;
use crate::item::flow_line;
use ftn_addr::{NoMemory, first_line};
use std::alloc::Global;

/// One item for each line of a flow file, in the order of the lines. Its only error is want of memory.
pub fn read_flow(alloc: Global, bytes: &[u8]) -> Result<Vec<FlowLine>, NoMemory>
    ensures { IfOk result (λ lines. map item lines.items ≡ flow_items bytes.now) }
{
    let mut items = Vec::new(alloc);
    let mut rest = bytes;
    while let Some((line, after)) = first_line(rest) {
        items.push(flow_line(alloc, line)?)?;
        rest = after;
    }
    Ok(items)
}
