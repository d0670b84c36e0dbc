//! Names in the folder of a zone.
ghost use Rattle.std.specs.Prelude.{◌≡◌, ◌++◌};
ghost use Rattle.bso_outbound.specs.Digits.{eight_digits};
ghost use Rattle.bso_outbound.specs.Kinds.{ending};
ghost use Rattle.bso_outbound.specs.Names.{node_digits, point_folder};
ghost use Rattle.bso_outbound.specs.Reading.{IsNode, IsPoint, IsSpot, Reads, at_node, at_point, name_at};

use crate::Kind;
use crate::digits::node_of;
use crate::kind::kind_of;
use crate::slash::cut_at_slash;
use ftn_addr::is_same_word;

/// A node of a zone, or one of its points; the point 0 is the node itself.
#[derive(Clone, Copy, Debug)]
pub(crate) struct Spot {
    pub net: u16,
    pub node: u16,
    pub point: u16,
}

/// The net and the node whose points have a folder of this name: four digits each, and `.pnt`.
///
/// Names are compared with ASCII case ignored. None exactly where no net and node of at most 32,767
/// have it.
pub fn point_folder_of(name: &[u8]) -> Option<(u16, u16)>
    ensures { Reads IsNode point_folder name.now result }
{
    if name.len() != 12 {
        return None;
    }
    let (digits, end) = name.split_at(8);
    if !is_same_word(end, b".pnt") {
        return None;
    }
    node_of(digits)
}

/// The net and the node, and the kind, of a file of eight digits and an ending.
fn node_file_of(name: &[u8]) -> Option<((u16, u16), Kind)>
    ensures { Reads (λ file. IsNode file.0) (λ file. node_digits file.0 ++ ending file.1) name.now result }
{
    if name.len() != 12 {
        return None;
    }
    let (digits, end) = name.split_at(8);
    node_of(digits).zip(kind_of(end))
}

/// The point and the kind of a file in a folder of points.
fn point_file_of(name: &[u8]) -> Option<(u16, Kind)>
    ensures { Reads (λ file. IsPoint file.0) (λ file. eight_digits file.0 ++ ending file.1) name.now result }
{
    let ((high, point), kind) = node_file_of(name)?;
    if high != 0 {
        return None;
    }
    if point == 0 {
        return None;
    }
    Some((point, kind))
}

fn at_node(file: ((u16, u16), Kind)) -> (Spot, Kind)
    ensures { result ≡ at_node file }
{
    let ((net, node), kind) = file;
    let point = 0;
    (Spot { net, node, point }, kind)
}

fn at_point(file: ((u16, u16), (u16, Kind))) -> (Spot, Kind)
    ensures { result ≡ at_point file }
{
    let ((net, node), (point, kind)) = file;
    (Spot { net, node, point }, kind)
}

/// The node or point, and the kind, of a file in the folder of a zone.
pub(crate) fn spot_of(name: &[u8]) -> Option<(Spot, Kind)>
    ensures { Reads (λ file. IsSpot file.0) name_at name.now result }
{
    match cut_at_slash(name) {
        None => Some(at_node(node_file_of(name)?)),
        Some((folder, file)) => {
            Some(at_point(point_folder_of(folder).zip(point_file_of(file))?))
        }
    }
}
