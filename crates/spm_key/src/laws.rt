//! Laws of the definitions: each function here has one as its contract, and nothing calls them.
ghost use Rattle.std.specs.Prelude.{◌≡◌, Some};
ghost use Rattle.std.specs.FinMap as map;
ghost use Rattle.spm_key.specs.Catalogue.{Catalogue, Extends};
ghost use Rattle.spm_key.specs.declared.key.Key.{Key};
ghost use Rattle.spm_key.specs.declared.reply.Reply.{Reply};

/// A catalogue extends itself; what extends it is extended onward; and what is found in it stays found, with the same reply.
pub fn catalogues_extend()
    ensures itself { (one : Catalogue) → Extends one one }
    ensures onward { (first second third : Catalogue) → Extends second first → Extends third second → Extends third first }
    ensures stays { (first second : Catalogue) (key : Key) (reply : Reply)
        → map.get first key ≡ Some reply → Extends second first → map.get second key ≡ Some reply }
{}
