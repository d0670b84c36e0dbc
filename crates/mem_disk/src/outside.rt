//! Files of other programs, and gifts to them.
use crate::block::Block;
use disk_model::Name;
use std::alloc::AllocError;
use std::marker::Model;

/// An outside file.
#[derive(Drop)]
pub struct OutsideFile {
    pub(crate) bytes: Block,
    pub(crate) time: u64,
}

impl Model for OutsideFile {
    ghost use Rattle.disk_model.specs.World.{OutFile};

    ghost Value = { OutFile };

    ghost view = { λ f. record { bytes = f.bytes; time = f.time } };
}

/// A file that was given away.
#[derive(Drop)]
pub struct GivenFile {
    pub(crate) own: Name,
    pub(crate) folder: Block,
    pub(crate) name: Block,
    pub(crate) bytes: Block,
}

impl Model for GivenFile {
    ghost use Rattle.disk_model.specs.World.{Gift};

    ghost Value = { Gift };

    ghost view = { λ g. record { own = g.own; folder = g.folder; name = g.name; bytes = g.bytes } };
}

impl Clone for OutsideFile {
    ghost use Rattle.std.specs.Prelude.{◌≡◌};

    ghost is_clone = { λ a b. b ≡ a };

    fn clone(&self) -> Result<OutsideFile, AllocError> {
        Ok(OutsideFile {
            bytes: self.bytes.clone()?,
            time: self.time,
        })
    }
}

impl Clone for GivenFile {
    ghost use Rattle.std.specs.Prelude.{◌≡◌};

    ghost is_clone = { λ a b. b ≡ a };

    fn clone(&self) -> Result<GivenFile, AllocError> {
        Ok(GivenFile {
            own: self.own,
            folder: self.folder.clone()?,
            name: self.name.clone()?,
            bytes: self.bytes.clone()?,
        })
    }
}
