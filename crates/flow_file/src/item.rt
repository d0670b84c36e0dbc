//! What one line of a flow file asks for.
ghost use Rattle.std.specs.Prelude.{◌≡◌, option_map, IfOk};
ghost use Rattle.flow_file.specs.Item.{flow_item, sent_by};
ghost use Rattle.flow_file.specs.Views.{sent, item};

use ftn_addr::{Action, Bytes, NoMemory, trimmed};
use std::alloc::Global;

/// What a line of a flow file asks for.
#[derive(Debug, Drop)]
pub enum FlowLine {
    /// The file with this path is to be sent; then the action is done with it.
    Send(Action, Bytes),
    /// Nothing is to be sent.
    Passed,
}

/// The longest line of a flow file, in bytes.
const MAX_LINE: usize = 1024;

/// The action that the first byte stands for, and the path behind it; `None` where the line is passed.
fn sent_by(line: &[u8]) -> Option<(Action, &[u8])>
    ensures { option_map sent result ≡ sent_by line.now }
{
    match line {
        [] | [b'~' | b'!', ..] => None,
        [b'#', path @ ..] => Some((Action::Cut, path)),
        [b'^' | b'-', path @ ..] => Some((Action::Delete, path)),
        [b'@', path @ ..] => Some((Action::Leave, path)),
        path => Some((Action::Leave, path)),
    }
}

/// The item of a line. An empty line, an empty path and a line of more than 1,024 bytes are passed, the
/// blanks at the ends left out.
pub(crate) fn flow_line(alloc: Global, line: &[u8]) -> Result<FlowLine, NoMemory>
    ensures { IfOk result (λ line'. item line' ≡ flow_item line.now) }
{
    let line = trimmed(line);
    if line.len() > MAX_LINE {
        return Ok(FlowLine::Passed);
    }
    match sent_by(line) {
        Some((action, path)) if !path.is_empty() => {
            Ok(FlowLine::Send(action, Bytes::from_slice(alloc, path)?))
        }
        _ => Ok(FlowLine::Passed),
    }
}
