//! The settings of a disk: its own file `binkp.conf`.
ghost use Rattle.std.specs.Prelude.{◌≡◌, length, option_map, Some, Ok, IfErr, IfOk, OnOk};
ghost use Rattle.disk_model.specs.Changes.{Every};
ghost use Rattle.mail_conf.specs.ConfView.{conf_text};
ghost use Rattle.mail_conf.specs.declared.cause.ConfCause.TheVariants.{TooLong};
ghost use Rattle.command_base.specs.Settings.{HasSettings, NoSettings, OnlyRead, Unspelled, settings_at, settings_name};
ghost use Rattle.command_base.specs.Statuses.{status_unset};
ghost use Rattle.command_base.specs.declared.settings.SettingsFault.TheVariants.{Disk as DiskFailed, NoMemory as OutOfMemory};

use disk_model::{Disk, Name};
use ftn_addr::Failed;
use mail_conf::{Conf, ConfCause, ConfFault, read_conf};
use std::alloc::{AllocError, Global};

/// The most bytes of settings that are read.
const MOST_BYTES: u64 = 1_048_576;

/// Why settings weren't read.
#[derive(Clone, Copy, Debug, PartialEq, Eq)]
pub enum SettingsFault {
    /// They are refused, or there are none.
    Refused(ConfFault),
    /// The disk failed.
    Disk,
    NoMemory,
}

impl From<Failed> for SettingsFault {
    ghost from_gives = { λ _ fault. fault ≡ DiskFailed };

    fn from(_error: Failed) -> SettingsFault {
        SettingsFault::Disk
    }
}

impl From<AllocError> for SettingsFault {
    ghost from_gives = { λ _ fault. fault ≡ OutOfMemory };

    fn from(_error: AllocError) -> SettingsFault {
        SettingsFault::NoMemory
    }
}

/// The name of the file.
fn settings_name() -> Name
    ensures { result ≡ settings_name }
{
    Name::new(b"binkp.conf").unwrap()
}

// The bytes of the file, which has so many.
fn read_text<D: Disk>(alloc: Global, disk: &mut D, len: u64) -> Result<Vec<u8>, SettingsFault>
    requires { Every (D.files disk.old) (λ w. Some len ≡ option_map length (w.own settings_name)) }
    ensures text { IfOk result (λ text. Every (D.files disk.old) (λ w. w.own settings_name ≡ Some text.items)) }
    ensures only { OnlyRead D.tells D.content D.fault_count D.moment D.images disk.old disk.new }
    ensures calm { OnOk result (D.fault_count disk.new ≡ D.fault_count disk.old) }
    ensures unset { IfErr result (λ fault. NoSettings D.tells D.content D.fault_count D.moment D.images disk.old disk.new (status_unset fault (D.fault_count disk.new))) }
{
    let name = settings_name();
    let mut bytes = vec![in alloc; 0; len as usize]?;
    disk.read_at(&name, 0, &mut bytes)?;
    Ok(bytes)
}

// The text of the file, or None where it isn't there, or why it isn't read: it has too many bytes, the disk failed, or there was
// no memory.
fn settings_text<D: Disk>(alloc: Global, disk: &mut D) -> Result<Option<Vec<u8>>, SettingsFault>
    ensures text { IfOk result (λ text. Every (D.files disk.old) (λ w. w.own settings_name ≡ option_map (λ bytes. bytes.items) text)) }
    ensures only { OnlyRead D.tells D.content D.fault_count D.moment D.images disk.old disk.new }
    ensures calm { OnOk result (D.fault_count disk.new ≡ D.fault_count disk.old) }
    ensures unset { IfErr result (λ fault. NoSettings D.tells D.content D.fault_count D.moment D.images disk.old disk.new (status_unset fault (D.fault_count disk.new))) }
{
    let Some(len) = disk.stat(&settings_name())? else {
        return Ok(None);
    };
    if len > MOST_BYTES {
        return Err(SettingsFault::Refused(too_long()));
    }
    match read_text(alloc, disk, len) {
        Ok(text) => Ok(Some(text)),
        Err(fault) => Err(fault),
    }
}

fn too_long() -> ConfFault
    ensures { result ≡ record { line = 0; cause = TooLong } }
{
    ConfFault {
        line: 0,
        cause: ConfCause::TooLong,
    }
}

// The settings that a text spells, and of no text that there are none.
fn spelled(alloc: Global, text: Option<Vec<u8>>) -> Result<Conf, SettingsFault>
    ensures ok { IfOk result (λ conf. settings_at (option_map (λ bytes. bytes.items) text) ≡ Ok (conf_text conf)) }
    ensures refused { IfErr result (λ fault. Unspelled (option_map (λ bytes. bytes.items) text) fault) }
{
    let Some(text) = text else {
        return Err(SettingsFault::Refused(ConfFault {
            line: 0,
            cause: ConfCause::NoText,
        }));
    };
    match read_conf(alloc, text.as_slice()) {
        Ok(conf) => Ok(conf),
        Err(fault) if fault.cause == ConfCause::NoMemory => Err(SettingsFault::NoMemory),
        Err(fault) => Err(SettingsFault::Refused(fault)),
    }
}

/// Reads the settings of a disk. No more than they have is read of it, and nothing is written.
///
/// # Errors
/// The line and the cause of a text that is refused, both of a text of more than 1,048,576 bytes and of none too; that the disk
/// failed; or want of memory.
pub fn read_settings<D: Disk>(alloc: Global, disk: &mut D) -> Result<Conf, SettingsFault>
    ensures ok { IfOk result (λ conf. HasSettings D.tells D.content D.fault_count D.moment D.images disk.old (conf_text conf)) }
    ensures only { OnlyRead D.tells D.content D.fault_count D.moment D.images disk.old disk.new }
    ensures calm { OnOk result (D.fault_count disk.new ≡ D.fault_count disk.old) }
    ensures unset { IfErr result (λ fault. NoSettings D.tells D.content D.fault_count D.moment D.images disk.old disk.new (status_unset fault (D.fault_count disk.new))) }
{
    let text = settings_text(alloc, disk)?;
    spelled(alloc, text)
}
