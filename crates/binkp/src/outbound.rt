//! The folder of the outbound, as a node that serves begins.
use command_base::read_settings;
use real_edge::RealFolder;
use std::{fs, str};

/// Says where the settings' folder of the outbound can't be looked at: a node that serves would take in nothing, and tell nothing of it.
pub fn look_for_outbound(rt: &HostRuntime, folder: &mut RealFolder<HostRuntime>) {
    let Ok(conf) = read_settings(rt.alloc(), folder) else {
        return;
    };
    let Ok(base) = str::from_utf8(conf.base.as_slice()) else {
        return;
    };
    if let Err(error) = fs::metadata(rt, base) {
        let _ = eprintln!(rt; "binkp: the outbound {base}: {error}");
    }
}
