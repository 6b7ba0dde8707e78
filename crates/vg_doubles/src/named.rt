//! Files in memory that can be read, by their names.
ghost use Rattle.std.specs.Prelude.{◌≡◌, IfSome, IfNone, None};
ghost use Rattle.vg_base.specs.Files.{AreBytes};
ghost use Rattle.vg_doubles.specs.Named.{lookup, name_at, bytes_at, IsFirst};

/// A name, and the bytes under it.
pub type Named = (String, Vec<u8>);

// Does nothing: that a slice holds bytes is known in proofs alone.
fn know_bytes(bytes: &[u8])
    ensures { AreBytes bytes.now }
{
    let _bytes = bytes;
}

/// Where the first file of a name stands.
pub fn first_of(files: &[Named], name: &str) -> Option<usize>
    ensures first { IfSome result (IsFirst files.now) }
    ensures name { IfSome result (λ i. name_at files.now i ≡ name.now) }
    ensures bytes { IfSome result (λ i. AreBytes (bytes_at files.now i)) }
    ensures none { IfNone result (lookup files.now name.now ≡ None) }
{
    let mut i = 0;
    for file in files {
        if file.0.as_str() == name {
            know_bytes(file.1.as_slice());
            return Some(i);
        }
        i += 1;
    }
    None
}
