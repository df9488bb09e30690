//! The laws of legal histories, whatever bounds are preferred.

ghost use Rattle.heap_model.specs.Checks.{ChecksLaw};
ghost use Rattle.heap_model.specs.Legal.{ApartLaw};
ghost use Rattle.heap_model.specs.Performed.{AccessesLaw, FoundLaw};

/// In a legal history no two live objects overlap, and no slot has a version twice.
pub fn law_apart()
    ensures { ApartLaw }
{}

/// No access of a legal history that is performed leaves its reach or its object.
pub fn law_accesses_inside()
    ensures { AccessesLaw }
{}

/// Each check of a legal history that finds bounds finds the preferred ones.
pub fn law_found_preferred()
    ensures { FoundLaw }
{}

/// Each check of a legal history has one of four answers, by its cause: the word is null, it names no live object, nothing there matches
/// the type, or the preferred bounds are found.
pub fn law_checks()
    ensures { ChecksLaw }
{}
