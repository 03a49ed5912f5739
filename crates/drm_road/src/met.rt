//! Which configurations were met before.
ghost use Rattle.std.specs.Prelude.{◌≡◌, ◌≤◌, length, IfOk};
ghost use Rattle.drm_road.specs.Met.{Adds, key_of};

use drm_arm::Config;
use drm_outside::Memory;
use std::collections::HashSet;

/// The coordinates of a configuration, with zeros behind them.
pub(crate) type Key = [i32; 6];

/// Notes that the configuration was met, and tells whether none that is equal was met before.
pub(crate) fn is_new(met: &mut HashSet<Key>, config: &Config) -> Result<bool, Memory>
    ensures { IfOk result (λ new. Adds met.old met.new (key_of config.now) new) }
{
    match met.insert(key(config)) {
        Ok(added) => Ok(added),
        Err(_) => Err(Memory),
    }
}

fn key(config: &Config) -> Key
    ensures { result ≡ key_of config.now }
{
    let mut key = [0; 6];
    for j in 0..config.joints() {
        key[j as usize] = config.at(j);
    }
    key
}
