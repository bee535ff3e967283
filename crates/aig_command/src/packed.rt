//! Files that another program packed, which their names tell.
ghost use Rattle.std.specs.Prelude.{◌≡◌, IfErr, None, OnOk, Some};
ghost use Rattle.aig_command.specs.Answer.{files_of, IsReason, name_of};
ghost use Rattle.aig_command.specs.Asked.{packer_of, source_refusal};
ghost use Rattle.aig_command.specs.Words.{packed_words, unpacked_words};

use crate::destination::ends_in;
use crate::request::Names;
use crate::usage::Usage;

/// A program that packs files and unpacks them.
#[derive(Clone, Copy, Debug)]
pub enum Packer {
    /// `gzip`, by `.gz`.
    Gzip,
    /// `xz`, by `.xz`.
    Xz,
    /// `zstd`, by `.zst`.
    Zstd,
    /// `bzip2`, by `.bz2`.
    Bzip2,
}

impl Packer {
    /// How a packed file is read, in words.
    pub(crate) fn unpacked_words(self) -> &'static str
        ensures { result.now ≡ unpacked_words self }
    {
        match self {
            Packer::Gzip => {
                "compressed input is not supported: use gzip -dc FILE.gz | aiger COMMAND .. - .."
            }
            Packer::Xz => {
                "compressed input is not supported: use xz -dc FILE.xz | aiger COMMAND .. - .."
            }
            Packer::Zstd => {
                "compressed input is not supported: use zstd -dc FILE.zst | aiger COMMAND .. - .."
            }
            Packer::Bzip2 => {
                "compressed input is not supported: use bzip2 -dc FILE.bz2 | aiger COMMAND .. - .."
            }
        }
    }

    /// How a packed file is written, in words.
    pub(crate) fn packed_words(self) -> &'static str
        ensures { result.now ≡ packed_words self }
    {
        match self {
            Packer::Gzip => {
                "compressed output is not supported: use aiger COMMAND .. - | gzip > FILE.gz"
            }
            Packer::Xz => {
                "compressed output is not supported: use aiger COMMAND .. - | xz > FILE.xz"
            }
            Packer::Zstd => {
                "compressed output is not supported: use aiger COMMAND .. - | zstd > FILE.zst"
            }
            Packer::Bzip2 => {
                "compressed output is not supported: use aiger COMMAND .. - | bzip2 > FILE.bz2"
            }
        }
    }
}

/// The program that packed the file of this name, by the name.
pub(crate) fn packer_of(named: &Option<String>) -> Option<Packer>
    ensures { result ≡ packer_of (name_of named.now) }
{
    if ends_in(named, ".gz") {
        return Some(Packer::Gzip);
    }
    if ends_in(named, ".xz") {
        return Some(Packer::Xz);
    }
    if ends_in(named, ".zst") {
        return Some(Packer::Zstd);
    }
    if ends_in(named, ".bz2") {
        return Some(Packer::Bzip2);
    }
    None
}

/// Whether no file that is read was packed.
pub(crate) fn check_sources(names: &Names) -> Result<(), Usage>
    ensures ok { OnOk result (source_refusal (files_of names.now) ≡ None) }
    ensures err { IfErr result (λ reason. IsReason reason
        × (source_refusal (files_of names.now) ≡ Some reason)) }
{
    if let Some(packer) = packer_of(&names.model) {
        return Err(Usage::CompressedInput(packer));
    }
    if let Some(packer) = packer_of(&names.file) {
        return Err(Usage::CompressedInput(packer));
    }
    if let Some(packer) = packer_of(&names.refutation) {
        return Err(Usage::CompressedInput(packer));
    }
    Ok(())
}
