//! Names of nodes, pipes and tables.
ghost use Rattle.std.specs.Prelude.{◌≡◌, ◌≤◌, length};

use std::marker::Model;

/// A name of up to 32 bytes, which contracts see as the list of its bytes.
#[derive(Clone, Copy, Debug, PartialEq, Eq)]
pub struct Name {
    /// The bytes of the name, then zeros.
    bytes: [u8; 32],
    /// How many bytes the name has.
    len: u8,
}

impl Model for Name {
    ghost use Rattle.std.specs.Prelude.{ℕ, List, take};
    ghost use Rattle.case_model.specs.Padding.{IsPadded};
    ghost use Rattle.case_model.specs.NameFields.{fields_of, fields_back};

    ghost Value = { List ℕ };

    ghost view = { λ n. take n.len n.bytes };

    ghost invariant = { λ n. IsPadded n.bytes n.len };

    ghost inverse = { fields_of };

    ghost inverse_ok = { fields_back };
}

impl Name {
    /// The name of 1 to 32 bytes, each as it stands.
    pub fn of(bytes: &[u8]) -> Name
        requires { length bytes.now ≤ 32 }
        ensures { result ≡ bytes.now }
    {
        let mut padded = [0; 32];
        padded[..bytes.len()].copy_from_slice(bytes);
        Name {
            bytes: padded,
            len: bytes.len() as u8,
        }
    }

    /// The bytes of the name.
    pub fn as_bytes(&self) -> &[u8]
        ensures bytes { result.now ≡ self.now }
        ensures few { length result.now ≤ 32 }
    {
        &self.bytes[..self.len as usize]
    }
}
