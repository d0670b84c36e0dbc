//! What the settings say of a hub.
ghost use Rattle.std.specs.Prelude.{◌≡◌, IfOk};
ghost use Rattle.hub_core.specs.Hubs.{settings_of};
ghost use Rattle.mail_conf.specs.ConfView.{conf_text};
ghost use Rattle.binkp_mailer.specs.Settings.{hub_settings};

use ftn_addr::NoMemory;
use hub_core::HubConf;
use mail_conf::Conf;
use std::alloc::Global;

/// What a hub refuses, and for how many callers it has room, by the settings.
pub fn hub_conf(alloc: Global, conf: &Conf) -> Result<HubConf, NoMemory>
    ensures { IfOk result (λ hub. settings_of hub ≡ hub_settings (conf_text conf.now)) }
{
    let mut refuse_names = Vec::new(alloc);
    for name in &conf.refuse_names {
        refuse_names.push(name.copy(alloc)?)?;
    }
    Ok(HubConf {
        max_servers: conf.max_servers,
        refuse_names,
        refuse_over: conf.refuse_over,
    })
}
