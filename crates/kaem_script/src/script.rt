ghost use Rattle.kaem_script.specs.Kept.{AreCommands, IsScript};
ghost use Rattle.kaem_script.specs.Script.{ReadsScript};
ghost use Rattle.std.specs.Prelude.{◌≡◌};

use crate::laws::scripts_keep_the_rules;
use crate::reading::{Command, commands_of};
use crate::refusal::ScriptRefusal;
use ddc_base::digests::Digest;
use ddc_base::{ListOf, digest};
use std::alloc::Global;
use std::marker::Model;

/// A script that was read: the digest of its bytes, and its commands.
#[derive(Drop)]
pub struct Script {
    digest: Digest,
    commands: ListOf<Command>,
}

impl Model for Script {
    ghost use Rattle.kaem_script.specs.Kept.{IsScript};
    ghost use Rattle.kaem_script.specs.Script.{ScriptContents};

    ghost Value = { ScriptContents };

    ghost view = { λ s. record { digest = s.digest; commands = s.commands } };

    ghost invariant = { λ s. IsScript (record { digest = s.digest; commands = s.commands }) };
}

impl Script {
    /// The digest of the script's bytes.
    pub fn digest(&self) -> &Digest
        ensures { result.now ≡ self.now.digest }
    {
        &self.digest
    }

    /// The commands, each with its words in order.
    pub fn commands(&self) -> &[Command]
        ensures value { result.now ≡ self.now.commands }
        // Every script obeys its rules.
        ensures kept { AreCommands self.now.commands }
        ensures whole { IsScript self.now }
    {
        self.commands.as_slice()
    }
}

/// Parses a script. Errors: its first fault from left to right, and out of memory.
pub fn read(alloc: Global, bytes: &[u8]) -> Result<Script, ScriptRefusal>
    ensures { ReadsScript bytes.now result }
{
    scripts_keep_the_rules();
    let commands = commands_of(alloc, bytes)?;
    Ok(Script {
        digest: digest(bytes),
        commands,
    })
}
