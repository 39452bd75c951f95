//! Laws that show the definitions of `specs/` sane. The functions do nothing: each stands for its contract.
ghost use Rattle.std.specs.Prelude.{◌≡◌, ◌≢◌, ◌<◌, ◌≤◌, length, true, None, Some, Contains, ◌⊎◌};
ghost use Rattle.verdict_cache.specs.Questions.{Asked, Kept, Verdicts, asks, found_under, with_first, with_kept};

/// Two questions are taken for one exactly if they are equal: they ask for the same, by the same profile, at the same versions.
pub fn questions_are_equal()
    ensures same { (p q : Asked) → asks p q ≡ true → p ≡ q }
    ensures equal { (p q : Asked) → p ≡ q → asks p q ≡ true }
{}

/// What was kept last under a question is found under it. What another question finds afterwards, it found before.
pub fn keeps_are_found()
    ensures found { (q : Asked) (k : Kept) (c : Verdicts) → found_under q (with_kept q k c) ≡ Some k }
    ensures others { (q other : Asked) (k kept : Kept) (c : Verdicts) → other ≢ q →
        found_under other (with_kept q k c) ≡ Some kept → found_under other c ≡ Some kept }
{}

/// A look changes the order alone: each question finds afterwards what it found before. One that finds nothing changes nothing.
pub fn looks_change_no_answer()
    ensures missed { (q : Asked) (c : Verdicts) → found_under q c ≡ None → with_first q c ≡ c }
    ensures answers { (q other : Asked) (c : Verdicts) → found_under other (with_first q c) ≡ found_under other c }
{}

/// Each entry after a look was there before; each entry after a keep was there before, or is what was kept. What is found under a
/// question is an entry under that very question. So what holds of each entry and of what is kept holds of what is found.
pub fn entries_stay()
    ensures look { (q : Asked) (c : Verdicts) (e : Asked × Kept) → Contains (with_first q c).entries e → Contains c.entries e }
    ensures keep { (q : Asked) (k : Kept) (c : Verdicts) (e : Asked × Kept) → Contains (with_kept q k c).entries e →
        Contains c.entries e ⊎ (e ≡ (q, k)) }
    ensures found { (q : Asked) (k : Kept) (c : Verdicts) → found_under q c ≡ Some k → Contains c.entries (q, k) }
{}

/// A look leaves the number of entries as it is, and a keep leaves it within the capacity.
pub fn entries_are_bounded()
    ensures look { (q : Asked) (c : Verdicts) → length (with_first q c).entries ≡ length c.entries }
    ensures keep { (q : Asked) (k : Kept) (c : Verdicts) → 0 < c.capacity → length c.entries ≤ c.capacity →
        length (with_kept q k c).entries ≤ c.capacity }
{}
