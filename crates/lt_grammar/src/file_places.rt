//! Laws of places in the files that a text is joined of. Each function does nothing: its contract is
//! the law.
ghost use Rattle.std.specs.Prelude.{◌≡◌, ◌+◌, ◌<◌, ◌++◌, ◌∷◌, [], List, ℕ, Some, length};
ghost use Rattle.lt_texts.specs.Files.{File, InFile, joined_text, in_file};

/// Each place before the joined text's end is in one of the files, behind those before it and the
/// front of its bytes that the place tells; the line feed behind a file is that file's end.
pub fn places_are_in_files()
    ensures { (files : List File) (place : ℕ) → place < length (joined_text files)
        → (p : InFile) × (in_file files place ≡ Some p)
        × (earlier : List File) × (f : File) × (later : List File)
        × (files ≡ earlier ++ f ∷ later) × (p.name ≡ f.name)
        × (rest : List ℕ) × (f.bytes ≡ p.before ++ rest)
        × (place ≡ length (joined_text earlier) + length p.before) }
{}

/// The joined text's end is the place behind the last file's last byte.
pub fn the_end_is_the_last_files_end()
    ensures { (files : List File) (f : File)
        → in_file (files ++ f ∷ []) (length (joined_text (files ++ f ∷ [])))
        ≡ Some (record { name = f.name; before = f.bytes }) }
{}
