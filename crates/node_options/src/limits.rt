//! The limits of a node.
ghost use Rattle.std.specs.Prelude.{◌≤◌, IfOk};
ghost use Rattle.clap.specs.Matches.{found_of};
ghost use Rattle.node_options.specs.Told.{IsNumberOr};
ghost use Rattle.node_options.specs.Limits.{AreLimits};
ghost use Rattle.node_options.specs.Settings.{members_of, told_of};

use crate::error::OptionError;
use crate::settings::Settings;
use node_names::Limits;

/// How many payloads a node keeps unless told.
const KEEP: u32 = 10_000;

/// The limits: the standard ones, but for what was given and the number of payloads to keep.
pub(crate) fn limits(settings: &Settings<'_, '_>) -> Result<Limits, OptionError>
    ensures { IfOk result (AreLimits (found_of settings.now.words.now) (members_of settings.now)) }
{
    let standard = Limits::STANDARD;
    let active = limit(settings, "active", 1, 16, standard.active())?;
    let passive = limit(settings, "passive", 1, 64, standard.passive())?;
    let arwl = limit(settings, "arwl", 0, 32, standard.arwl())?;
    let prwl = limit(settings, "prwl", 0, 32, standard.prwl())?;
    let ka = limit(settings, "ka", 0, 7, standard.ka())?;
    let kp = limit(settings, "kp", 0, 7, standard.kp())?;
    let threshold = count(settings, "threshold", standard.threshold())?;
    let keep = count(settings, "keep", KEEP)?;
    match Limits::new(active, passive, arwl, prwl, ka, kp) {
        Ok(limits) => Ok(limits.tuned(threshold).keeping(keep)),
        Err(_) => Err(OptionError::LimitsApart),
    }
}

fn limit(
    settings: &Settings<'_, '_>,
    option: &'static str,
    least: u8,
    most: u8,
    standard: u8,
) -> Result<u8, OptionError>
    requires { (least ≤ standard) × (standard ≤ most) }
    ensures { IfOk result (IsNumberOr standard (told_of settings.now option.now)) }
{
    let number = settings.number(
        option,
        u64::from(least),
        u64::from(most),
        u64::from(standard),
    )?;
    Ok(number as u8)
}

fn count(
    settings: &Settings<'_, '_>,
    option: &'static str,
    standard: u32,
) -> Result<u32, OptionError>
    ensures { IfOk result (IsNumberOr standard (told_of settings.now option.now)) }
{
    let number = settings.number(option, 0, u64::from(u32::MAX), u64::from(standard))?;
    Ok(number as u32)
}
