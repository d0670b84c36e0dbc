//! What holds of settings, whatever their text.
ghost use Rattle.mail_conf.specs.Limits.{EachKeepsLimits};

/// Settings that were read have an own address, each address in them is within the limits of one, and
/// three numbers are of their ranges whether a line set them or not: `block` from 1 to 32,767,
/// `session_limit` from 1 to 17,592,186,044,416 and `max_servers` from 1 to 100.
pub fn what_is_read_keeps_limits()
    ensures { EachKeepsLimits }
{}
