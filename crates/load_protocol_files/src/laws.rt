//! Laws of the six files.
ghost use Rattle.load_protocol_files.specs.Files.{IsExact};
ghost use Rattle.load_protocol_files.specs.Lci.{lci, LciSpells};
ghost use Rattle.load_protocol_files.specs.Lcl.{lcl, LclSpells};
ghost use Rattle.load_protocol_files.specs.Lcs.{lcs, LcsSpells};
ghost use Rattle.load_protocol_files.specs.Lui.{lui, LuiSpells};
ghost use Rattle.load_protocol_files.specs.Lur.{lur, LurSpells};
ghost use Rattle.load_protocol_files.specs.Lus.{lus, LusSpells};

/// In each of the six formats bytes spell exactly one file or have exactly one first fault; a file
/// has one spelling, and is read from it.
// For the proof: does nothing.
pub fn protocol_file_laws()
    ensures lci { IsExact lci LciSpells }
    ensures lcl { IsExact lcl LclSpells }
    ensures lcs { IsExact lcs LcsSpells }
    ensures lui { IsExact lui LuiSpells }
    ensures lur { IsExact lur LurSpells }
    ensures lus { IsExact lus LusSpells }
{}
