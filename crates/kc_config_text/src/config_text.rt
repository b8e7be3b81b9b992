//! Reading the text of a configuration.
ghost use Rattle.std.specs.Prelude.{◌≡◌, ◌≤◌, length, IfOk, option_map};
ghost use Rattle.serde_json.specs.View.{view, items_view};
ghost use Rattle.serde_json.specs.Find.{as_object};
ghost use Rattle.kc_config_text.specs.Faults.{config_fault_words};
ghost use Rattle.kc_config_text.specs.ConfigText.{number_under, digest_of_value, digests_in, member_count, fields_in, version_in, shape_in, configured, config_in, ConfigGives};

use crate::config_value::read_value;
use hex::FromHex;
use json::Invalid;
use kc_types::{Config, ConfigFault, Version};
use serde_json::Value;
use std::alloc::{AllocError, AllocFailed, Global};
use std::error::Error;
use std::fmt;
use std::marker::Model;

/// Why a text is not a configuration.
#[derive(Clone, Copy, Debug, PartialEq, Eq)]
pub enum ConfigTextFault {
    /// The bytes are not UTF-8 or not JSON, or arrays and objects nest deeper than 127.
    NotJson,
    /// A JSON value that is not an object with the five keys, or with these and `version`, or that has another kind of
    /// value under one of them.
    BadShape,
    /// There is no configuration of these numbers and digests.
    Config(ConfigFault),
    /// Memory could not be had.
    Memory,
}

impl ConfigTextFault {
    /// What is wrong.
    pub const fn words(&self) -> &'static str
        ensures text { result.now ≡ config_fault_words self.now }
        ensures short { length result.now ≤ 40 }
    {
        match self {
            ConfigTextFault::NotJson => "configuration is not JSON",
            ConfigTextFault::BadShape => "configuration has a wrong shape",
            ConfigTextFault::Config(ConfigFault::Frames) => "configuration refused: frames",
            ConfigTextFault::Config(ConfigFault::CoreHost) =>
                "configuration refused: core and host",
            ConfigTextFault::Config(ConfigFault::Leaves) => "configuration refused: leaves",
            ConfigTextFault::Config(ConfigFault::TooManyDigests) =>
                "configuration refused: approved",
            ConfigTextFault::Memory => "out of memory",
        }
    }
}

impl fmt::Display for ConfigTextFault {
    fn fmt<W: fmt::Write>(&self, f: &mut fmt::Formatter<W>) -> fmt::Result {
        f.write_str(self.words())
    }
}

impl Error for ConfigTextFault {}

impl From<Invalid> for ConfigTextFault {
    ghost use Rattle.kc_config_text.specs.declared.config_text.ConfigTextFault.TheVariants.{NotJson};
    ghost use Rattle.std.specs.Prelude.{◌≡◌};

    ghost from_gives = { λ _ fault. fault ≡ NotJson };

    fn from(_invalid: Invalid) -> ConfigTextFault {
        ConfigTextFault::NotJson
    }
}

impl From<AllocError> for ConfigTextFault {
    ghost use Rattle.kc_config_text.specs.declared.config_text.ConfigTextFault.TheVariants.{Memory};
    ghost use Rattle.std.specs.Prelude.{◌≡◌};

    ghost from_gives = { λ _ fault. fault ≡ Memory };

    fn from(_refused: AllocError) -> ConfigTextFault {
        ConfigTextFault::Memory
    }
}

impl<T: Drop> From<AllocFailed<T>> for ConfigTextFault {
    ghost use Rattle.kc_config_text.specs.declared.config_text.ConfigTextFault.TheVariants.{Memory};
    ghost use Rattle.std.specs.Prelude.{◌≡◌};

    ghost from_gives = { λ _ fault. fault ≡ Memory };

    fn from(_refused: AllocFailed<T>) -> ConfigTextFault {
        ConfigTextFault::Memory
    }
}

/// What an object of these keys holds, before it is judged.
#[derive(Drop)]
struct Fields {
    version: Version,
    frames: u32,
    core: u32,
    host: u32,
    leaves: u32,
    approved: Vec<[u8; 32]>,
}

impl Model for Fields {
    ghost use Rattle.kc_types.specs.Configuration.{Configuration};

    ghost Value = { Configuration };

    ghost view = { λ f. record { version = f.version; frames = f.frames; core = f.core; host = f.host; leaves = f.leaves; approved = f.approved.items } };
}

impl Fields {
    /// The fields under their keys, whatever other keys there are.
    fn of_members(
        alloc: Global,
        version: Version,
        value: &Value,
    ) -> Result<Option<Fields>, AllocError>
        ensures { IfOk result (λ found. found ≡ fields_in version (view value.now)) }
    {
        let Some(frames) = number_under(value, "frames") else {
            return Ok(None);
        };
        let Some(core) = number_under(value, "core") else {
            return Ok(None);
        };
        let Some(host) = number_under(value, "host") else {
            return Ok(None);
        };
        let Some(leaves) = number_under(value, "leaves") else {
            return Ok(None);
        };
        let Some(values) = value.get("approved").and_then(Value::as_array) else {
            return Ok(None);
        };
        let Some(approved) = digests_of(alloc, values)? else {
            return Ok(None);
        };
        Ok(Some(Fields {
            version,
            frames,
            core,
            host,
            leaves,
            approved,
        }))
    }

    /// The fields of an object that has these keys and no others.
    fn of_value(alloc: Global, value: &Value) -> Result<Option<Fields>, AllocError>
        ensures { IfOk result (λ found. found ≡ shape_in (view value.now)) }
    {
        let Some(version) = version_of_value(value) else {
            return Ok(None);
        };
        Fields::of_members(alloc, version, value)
    }

    fn into_config(self) -> Result<Config, ConfigTextFault>
        ensures { ConfigGives result (configured self) }
    {
        let made = Config::with_version(
            self.version,
            self.frames,
            self.core,
            self.host,
            self.leaves,
            self.approved,
        );
        match made {
            Ok(config) => Ok(config),
            Err(fault) => Err(ConfigTextFault::Config(fault)),
        }
    }
}

fn number_under(value: &Value, key: &str) -> Option<u32>
    ensures { result ≡ number_under key.now (view value.now) }
{
    value.get(key)?.as_u64()?.try_into().ok()
}

fn digest_of(value: &Value) -> Option<[u8; 32]>
    ensures { result ≡ digest_of_value (view value.now) }
{
    <[u8; 32] as FromHex>::from_hex(value.as_str()?).ok()
}

fn digests_of(alloc: Global, values: &[Value]) -> Result<Option<Vec<[u8; 32]>>, AllocError>
    ensures { IfOk result (λ found. option_map (λ digests. digests.items) found ≡ digests_in (items_view values.now)) }
{
    let mut digests = Vec::new(alloc);
    for value in values {
        let Some(digest) = digest_of(value) else {
            return Ok(None);
        };
        digests.push(digest)?;
    }
    Ok(Some(digests))
}

/// The number of members, if the value is an object.
fn count_members(value: &Value) -> Option<usize>
    ensures { result ≡ option_map member_count (as_object (view value.now)) }
{
    match value.as_object() {
        Some(members) => Some(members.len()),
        None => None,
    }
}

/// The version of an object of five members, or of six, one of which is `version`.
fn version_of_value(value: &Value) -> Option<Version>
    ensures { result ≡ version_in (view value.now) (option_map member_count (as_object (view value.now))) }
{
    match count_members(value)? {
        5 => Some(Version::One),
        6 => match number_under(value, "version")? {
            1 => Some(Version::One),
            2 => Some(Version::Two),
            3 => Some(Version::Three),
            _ => None,
        },
        _ => None,
    }
}

/// Reads a configuration: a JSON object with exactly the keys `frames`, `core`, `host` and `leaves`, each a whole
/// number of 32 bits, and `approved`, an array of texts of 64 hexadecimal digits each, upper or lower case. There may
/// also be a key `version`, which is 1, 2 or 3; without it the version is 1. If a key appears twice, the last value
/// counts. A number with a fraction or an exponent is not a whole number. No more of the text is kept than a
/// configuration can hold.
#[tactic(auto, unfolding(crate::specs::ConfigText::config_in))]
pub fn read_config(alloc: Global, bytes: &[u8]) -> Result<Config, ConfigTextFault>
    // The configuration or the fault of the text, unless memory runs out.
    ensures exact { ConfigGives result (config_in bytes.now) }
{
    let value = read_value(alloc, bytes)?;
    match Fields::of_value(alloc, &value)? {
        Some(fields) => fields.into_config(),
        None => Err(ConfigTextFault::BadShape),
    }
}
