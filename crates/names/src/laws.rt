//! Laws that show the definitions of `specs/` sane. The functions do nothing: each stands for its contract.
ghost use Rattle.std.specs.Prelude.{◌≡◌, ◌≢◌, ◌||◌, ℕ, ◌<◌, List, ◌∷◌, ◌++◌, length, Some, None, All, false, true, slice_index_or};
ghost use Rattle.names.specs.declared.permissions.Permission.{Permission};
ghost use Rattle.names.specs.declared.permissions.Perms.{Perms};
ghost use Rattle.names.specs.declared.permissions.Permission.TheVariants.{Append, Write};
ghost use Rattle.names.specs.Permissions.{all_permissions, has, held, index, letter, letters, permission_count, permission_of, perms_of};
ghost use Rattle.names.specs.Paths.{components, ends_with_slash, path_fault, IsName, IsPart, IsPathComponent};
ghost use Rattle.names.specs.Grounds.{IsVerdictOn};
ghost use Rattle.names.specs.Least.{hits_of, record_of};
ghost use Rattle.names.specs.Records.{IsTold};
ghost use Rattle.names.specs.contracts.record.RecordPartialEq.TheImpl as record_impl;
ghost use Rattle.names.specs.declared.judgment.Grounds.{Grounds};
ghost use Rattle.names.specs.declared.record.LeastHits.{LeastHits};
ghost use Rattle.names.specs.declared.record.Record.{Record};
ghost use Rattle.names.specs.declared.verdict.Verdict.{Verdict};

/// Each permission is at its own place in [`Permission::ALL`](crate::Permission::ALL), and nothing else is there.
pub fn permissions_are_numbered()
    ensures below { (p : Permission) → index p < permission_count }
    ensures there { (p other : Permission) → slice_index_or all_permissions (index p) other ≡ p }
    ensures only { (k : ℕ) (other : Permission) → k < permission_count → index (slice_index_or all_permissions k other) ≡ k }
{}

/// A letter stands for at most one permission, and each permission has its letter.
pub fn one_letter_each()
    ensures read_again { (p : Permission) → permission_of (letter p) ≡ Some p }
    ensures only { (b : ℕ) (p : Permission) → permission_of b ≡ Some p → letter p ≡ b }
{}

/// The letters of a set, as it is printed, are read again as that set.
pub fn letters_read_again()
    ensures { (s : Perms) → perms_of (letters s) ≡ Some s }
{}

/// A rule holds the permissions of its letters, and append if write is among them, and nothing else.
pub fn who_writes_appends()
    ensures append { (s : Perms) → has (held s) Append ≡ (has s Append || has s Write) }
    ensures others { (s : Perms) (p : Permission) → p ≢ Append → has (held s) p ≡ has s p }
    ensures settled { (s : Perms) → held (held s) ≡ held s }
{}

/// A component of a text is never empty, and has no slash.
pub fn components_are_parts()
    ensures { (text : List ℕ) → All IsPart (components text) }
{}

/// A component of a path is short enough, too, and has no byte 0.
pub fn components_of_paths()
    ensures { (path : List ℕ) → path_fault path ≡ None → All IsPathComponent (components path) }
{}

/// Text that ends with no slash, a slash and more text have the components of both texts.
pub fn components_of_joined()
    ensures { (text more : List ℕ) → ends_with_slash text ≡ false → 0 < length more
        → components (text ++ 47 ∷ more) ≡ components text ++ components more }
{}

/// A path is a name, since each of its bytes is one.
pub fn paths_are_names()
    ensures { (path : List ℕ) → path_fault path ≡ None → All (λ b. b < 256) path → IsName path }
{}

/// A record is determined by its hits for each permission, and there is a record for any choice of hits.
pub fn records_are_their_hits()
    ensures same { (r s : Record) → ((p : Permission) → hits_of r p ≡ hits_of s p) → r ≡ s }
    ensures made { (hits : Permission → LeastHits) (p : Permission) → hits_of (record_of hits) p ≡ hits p }
{
    permissions_are_numbered();
}

/// Records that `==` finds equal are the same.
pub fn equal_records_are_one()
    ensures { (r s : Record) → record_impl.eq-value.it r s ≡ true → r ≡ s }
{
    permissions_are_numbered();
}

/// A record gives at most one verdict.
pub fn records_tell_one_verdict()
    ensures { (r : Record) (ask : Perms) (first second : Verdict) → IsTold r ask first → IsTold r ask second → first ≡ second }
{}

/// There is at most one verdict on given grounds ([`Grounds::verdict`](crate::Grounds::verdict) returns it).
pub fn grounds_have_one_verdict()
    ensures { (grounds : Grounds) (first second : Verdict) → IsVerdictOn grounds first → IsVerdictOn grounds second → first ≡ second }
{}
