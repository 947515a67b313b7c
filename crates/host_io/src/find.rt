// Files in a list, by their names.
ghost use Rattle.std.specs.Prelude.{◌≡◌, position};
ghost use Rattle.host_io.specs.Files.{has_name};

/// The place of the first file with this name.
pub fn find_file(files: &[(String, Vec<u8>)], name: &str) -> Option<usize>
    ensures { result ≡ position (has_name name.now) files.now }
{
    files.iter().position(|file| file.0.as_str() == name)
}
