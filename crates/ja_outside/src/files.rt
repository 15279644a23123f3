//! A file of a list, by its name.

ghost use Rattle.std.specs.Prelude.{◌≡◌, ◌<◌, length, IfSome, option_and_then};
ghost use Rattle.ja_outside.specs.Files.{files_of, content_at};
ghost use Rattle.ja_outside.specs.InMemory.{file_of};

/// The place of the first file of this name.
pub(crate) fn place_of(files: &[(String, Vec<u8>)], name: &str) -> Option<usize>
    ensures within { IfSome result (λ k. k < length files.now) }
    ensures found { option_and_then (content_at files.now) result
        ≡ file_of (files_of files.now) name.now }
{
    for (place, file) in files.iter().enumerate() {
        if file.0.as_str() == name {
            return Some(place);
        }
    }
    None
}
