// The configuration at the end of a line.
ghost use Rattle.script_words.specs.Gives.{Gives};
ghost use Rattle.script_words.specs.Configs.{config_of};

use crate::rule::{LineError, ScriptRule};
use member_config::{Config, ConfigTextError};
use std::alloc::Global;

/// The configuration that a text spells as JSON.
pub fn config_of(alloc: Global, text: &str) -> Result<Config, LineError>
    ensures { Gives (λ config. config) result (config_of text.now) }
{
    match Config::from_json(alloc, text) {
        Ok(config) => Ok(config),
        Err(ConfigTextError::BadConfigText) => Err(LineError::Rule(ScriptRule::BadConfigText)),
        Err(ConfigTextError::Memory) => Err(LineError::Memory),
    }
}
