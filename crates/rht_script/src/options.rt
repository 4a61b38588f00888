//! The options of a table line, and the config that they stand for.
//!
//! Stands on `rht_words`, which rounds sizes and says how large a first table is.

ghost use Rattle.std.specs.Prelude.{◌≡◌};
ghost use Rattle.rht_script.specs.TableLines.{no_options, with_setting, sizes_agree, configured, config_of};
ghost use Rattle.rht_script.specs.Allowed.{AreAllowed, IsAllowed};

use crate::cause::Cause;
use rht_words::limits::{LEAST_SIZE, PAGE_WORDS};
use rht_words::{Config, Hash, Kind, rounded_down, rounded_up};

/// An option with its value.
#[derive(Clone, Copy, Debug, PartialEq, Eq)]
pub(crate) enum Setting {
    Nodes(u32),
    Hint(u32),
    Min(u32),
    Max(u32),
    Pages(u32),
    Workers(u32),
    Seed(u32),
    Rewalks(u32),
    Form(u32),
    Hashing(Hash),
    Shrink(bool),
    Auto(bool),
}

/// What is set so far, and whether an option was set twice.
#[derive(Clone, Copy, Debug, PartialEq, Eq)]
pub(crate) struct Options {
    pub(crate) nodes: Option<u32>,
    pub(crate) hint: Option<u32>,
    pub(crate) min: Option<u32>,
    pub(crate) max: Option<u32>,
    pub(crate) pages: Option<u32>,
    pub(crate) workers: Option<u32>,
    pub(crate) seed: Option<u32>,
    pub(crate) rewalks: Option<u32>,
    pub(crate) form: Option<u32>,
    pub(crate) hash: Option<Hash>,
    pub(crate) shrink: Option<bool>,
    pub(crate) auto: Option<bool>,
    pub(crate) twice: bool,
}

impl Options {
    /// Nothing is set.
    pub(crate) fn new() -> Self
        ensures value { result ≡ no_options }
        ensures allowed { AreAllowed result }
    {
        Options {
            nodes: None,
            hint: None,
            min: None,
            max: None,
            pages: None,
            workers: None,
            seed: None,
            rewalks: None,
            form: None,
            hash: None,
            shrink: None,
            auto: None,
            twice: false,
        }
    }

    /// The options with a further setting.
    pub(crate) fn with(self, setting: Setting) -> Self
        requires options { AreAllowed self }
        requires setting { IsAllowed setting }
        ensures value { result ≡ with_setting self setting }
        ensures allowed { AreAllowed result }
    {
        match setting {
            Setting::Nodes(nodes) => Options {
                nodes: Some(nodes),
                twice: self.twice || self.nodes.is_some(),
                ..self
            },
            Setting::Hint(hint) => Options {
                hint: Some(hint),
                twice: self.twice || self.hint.is_some(),
                ..self
            },
            Setting::Min(min) => Options {
                min: Some(min),
                twice: self.twice || self.min.is_some(),
                ..self
            },
            Setting::Max(max) => Options {
                max: Some(max),
                twice: self.twice || self.max.is_some(),
                ..self
            },
            Setting::Pages(pages) => Options {
                pages: Some(pages),
                twice: self.twice || self.pages.is_some(),
                ..self
            },
            Setting::Workers(workers) => Options {
                workers: Some(workers),
                twice: self.twice || self.workers.is_some(),
                ..self
            },
            Setting::Seed(seed) => Options {
                seed: Some(seed),
                twice: self.twice || self.seed.is_some(),
                ..self
            },
            Setting::Rewalks(rewalks) => Options {
                rewalks: Some(rewalks),
                twice: self.twice || self.rewalks.is_some(),
                ..self
            },
            Setting::Form(form) => Options {
                form: Some(form),
                twice: self.twice || self.form.is_some(),
                ..self
            },
            Setting::Hashing(hash) => Options {
                hash: Some(hash),
                twice: self.twice || self.hash.is_some(),
                ..self
            },
            Setting::Shrink(shrink) => Options {
                shrink: Some(shrink),
                twice: self.twice || self.shrink.is_some(),
                ..self
            },
            Setting::Auto(auto) => Options {
                auto: Some(auto),
                twice: self.twice || self.auto.is_some(),
                ..self
            },
        }
    }

    /// The config of a table of this kind with these options, where they agree.
    #[tactic(auto, unfolding(crate::specs::TableLines::config_of))]
    pub(crate) fn config(self, kind: Kind) -> Result<Config, Cause>
        requires { AreAllowed self }
        ensures { result ≡ config_of kind self }
    {
        let config = self.configured(kind);
        if self.twice
            || !sizes_agree(&config)
            || config.starting_size() > PAGE_WORDS * config.pages
        {
            return Err(Cause::OptionsDisagree);
        }
        Ok(config)
    }

    /// What a table of this kind is opened with, also where the options don't agree.
    #[tactic(auto, unfolding(crate::specs::TableLines::configured))]
    fn configured(self, kind: Kind) -> Config
        requires { AreAllowed self }
        ensures { result ≡ configured kind self }
    {
        let plain = Config::plain();
        Config {
            kind,
            nodes: self.nodes.unwrap_or(plain.nodes),
            pages: self.pages.unwrap_or(plain.pages),
            callers: self.workers.unwrap_or(plain.callers),
            hint: self.hint.unwrap_or(plain.hint),
            min: rounded_up(self.min.unwrap_or(plain.min)).max(LEAST_SIZE),
            max: rounded_down(self.max.unwrap_or(plain.max)),
            seed: self.seed.unwrap_or(plain.seed),
            rewalks: self.rewalks.unwrap_or(plain.rewalks),
            hash: self.hash.unwrap_or(plain.hash),
            shrink: self.shrink.unwrap_or(plain.shrink),
        }
    }
}

/// Whether the least size isn't above the greatest, where there is one.
fn sizes_agree(config: &Config) -> bool
    ensures { result ≡ sizes_agree config.now }
{
    config.max == 0 || config.min <= config.max
}
