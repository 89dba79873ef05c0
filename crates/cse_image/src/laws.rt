//! Laws of the spellings.

ghost use Rattle.std.specs.Prelude.{◌≡◌, ◌++◌, ℕ, List, []};
ghost use Rattle.cse_image_parts.specs.declared.version.Version.{Version as AVersion};
ghost use Rattle.cse_image_parts.specs.declared.version.Version.TheVariants as versions;
ghost use Rattle.cse_image_parts.specs.Image.{Image};
ghost use Rattle.cse_image_parts.specs.Upgrade.{upgrade};
ghost use Rattle.cse_image.specs.Spelling.{spelling, SpellsIn, Spells};

/// A program has one spelling in version 2, and a program of version 1 has one in version 1.
pub fn one_spelling()
    ensures { (version : AVersion) (x : Image) (a b : List ℕ) → SpellsIn version x a → SpellsIn version x b → a ≡ b }
{}

/// No spelling of either version begins another: what follows a spelling is told apart, and the
/// versions and the programs are the same.
pub fn none_begins_another()
    ensures { (v w : AVersion) (x y : Image) (a b rest : List ℕ) → SpellsIn v x a → SpellsIn w y b → a ++ rest ≡ b → (v ≡ w) × (x ≡ y) × (rest ≡ []) }
{}

/// The upgrade of a program that has a spelling in version 1 has one in version 2.
#[tactic(auto, using(crate::proofs::Upgrades::upgrade_spelled))]
pub fn upgrade_has_a_spelling()
    ensures { (x : Image) (bytes : List ℕ) → SpellsIn versions.One x bytes → Spells (upgrade x) (spelling (upgrade x)) }
{}
