//! Laws that show the definitions of `specs/` sane. The functions do nothing: each stands for its contract.
ghost use Rattle.std.specs.Prelude.{◌≡◌, ◌≢◌, ◌⊎◌, ◌≤◌, ℕ, List, ◌++◌, length};
ghost use Rattle.image_header.specs.Headers.{IsFaultOfAll, IsLengthOfAll};
ghost use Rattle.tables.specs.Images.{IsFirstImageFault, IsImageOf, IsWhole};
ghost use Rattle.tables.specs.Tables.{Table};
ghost use Rattle.tables.specs.declared.fault.ImageFault.{ImageFault};
ghost use Rattle.tables.specs.declared.fault.ImageFault.TheVariants as fault;

use tables::{bytes_have_one_outcome, images_are_whole};

/// Of an image whose header has a fault, `from_bytes` reports that fault: its clauses leave no table, and no other fault.
/// A header has one fault or one length, and not both where no more than the image is known.
pub fn headers_settle_images()
    ensures no_table { (front more : List ℕ) (f : ImageFault) (t : Table) → IsFaultOfAll front f → ¬ (IsImageOf (front ++ more) t) }
    ensures one_fault { (front more : List ℕ) (f g : ImageFault) → IsFaultOfAll front f →
        ((g ≡ fault.NoMemory) × IsWhole (front ++ more)) ⊎ IsFirstImageFault (front ++ more) g → g ≡ f }
    ensures length_alone { (front more : List ℕ) (n : ℕ) (t : Table) → IsLengthOfAll front n → IsImageOf (front ++ more) t →
        length (front ++ more) ≡ n }
    ensures one_length { (front : List ℕ) (m n : ℕ) → IsLengthOfAll front m → IsLengthOfAll front n → m ≡ n }
    ensures either { (front : List ℕ) (n : ℕ) (f : ImageFault) → length front ≤ n → IsLengthOfAll front n → ¬ (IsFaultOfAll front f) }
{
    images_are_whole();
    bytes_have_one_outcome();
}
