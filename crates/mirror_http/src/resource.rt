//! The resources of a mirror.
ghost use Rattle.std.specs.Prelude.{◌≡◌, ◌↔◌, ℕ, List, IfNone, IfSome, IsTrue, codes};
ghost use Rattle.hex.specs.Hex.{encode_lower};
ghost use Rattle.tlog_text.specs.Hash.{Is32Bytes};
ghost use Rattle.mirror_http.specs.Resource.{FindsTwo, HasTwo, IsHexHash, IsNumber, Names};
ghost use Rattle.mirror_http.specs.Resource.{NamesFile, NamesHead, NamesNumbers};

use hex::FromHex;
use tlog_hash::Hash;
use tlog_proof::Ask;
use tlog_shape::MAX_SIZE;
use tlog_text::read_number;
use tlog_tiles::Path;

/// A resource that a client may request from a mirror.
#[derive(Clone, Copy)]
pub enum Resource {
    /// `/` and a path: a file of the log.
    File(Path),
    /// `/mirror/status`: the tree heads that are held, and the served checkpoint.
    Status,
    /// `/mirror/forks`: the pairs of tree heads that no single log can have.
    Forks,
    /// `/mirror/missing/SIZE/ROOT`, with the root in lower case hexadecimal: the missing paths of a
    /// tree head.
    Missing { size: u64, root: Hash },
    /// `/mirror/inclusion/SIZE/INDEX` or `/mirror/consistency/FIRST/SECOND`: a proof of the served
    /// entries.
    Proof(Ask),
}

// The two texts after the prefix. The first contains no slash.
fn two_behind<'a>(target: &'a str, front: &str) -> Option<(&'a str, &'a str)>
    ensures found { IfSome result (λ x. HasTwo front.now target.now x.0.now x.1.now) }
    ensures complete { FindsTwo (λ x. x.0.now) (λ x. x.1.now) front.now target.now result }
{
    target.strip_prefix(front)?.split_once('/')
}

// The number that the text spells.
fn number_of(text: &str) -> Option<u64>
    ensures found { IfSome result (λ n. IsNumber text.now n) }
    ensures none { IfNone result ((n : ℕ) → ¬ IsNumber text.now n) }
{
    match read_number(text, MAX_SIZE) {
        Ok(n) => Some(n),
        Err(_) => None,
    }
}

// The two numbers after the prefix.
fn numbers_of(target: &str, front: &str) -> Option<(u64, u64)>
    ensures found { IfSome result (λ x. NamesNumbers front.now target.now x.0 x.1) }
    ensures none { IfNone result ((m n : ℕ) → ¬ NamesNumbers front.now target.now m n) }
{
    let Some((first, second)) = two_behind(target, front) else {
        return None;
    };
    let Some(m) = number_of(first) else {
        return None;
    };
    let Some(n) = number_of(second) else {
        return None;
    };
    Some((m, n))
}

// Whether the digits are those of the hash, in lower case.
fn is_spelled(hash: &Hash, digits: &str) -> bool
    ensures is_hash { Is32Bytes hash.now }
    ensures spelled { IsTrue result ↔ (digits.now ≡ encode_lower hash.now) }
{
    let mut spelled = [0u8; 64];
    hex::encode_to_slice(hash.as_slice(), &mut spelled).is_ok()
        && spelled.as_slice() == digits.as_bytes()
}

// The hash that the digits spell in lower case. The decoder accepts upper case too, so the digits
// are compared with those of the hash.
fn hash_of(digits: &str) -> Option<Hash>
    ensures found { IfSome result (λ hash. IsHexHash digits.now hash) }
    ensures none { IfNone result ((hash : List ℕ) → ¬ IsHexHash digits.now hash) }
{
    match <[u8; 32]>::from_hex(digits) {
        Ok(hash) => {
            if is_spelled(&hash, digits) {
                Some(hash)
            } else {
                None
            }
        }
        Err(_) => None,
    }
}

// The size and the root of a target for missing paths.
fn point_in(target: &str) -> Option<(u64, Hash)>
    ensures found { IfSome result (λ x. NamesHead (codes "/mirror/missing/") target.now x.0 x.1) }
    ensures none { IfNone result ((n : ℕ) (root : List ℕ)
        → ¬ NamesHead (codes "/mirror/missing/") target.now n root) }
{
    let Some((digits, hex_digits)) = two_behind(target, "/mirror/missing/") else {
        return None;
    };
    let Some(size) = number_of(digits) else {
        return None;
    };
    let Some(root) = hash_of(hex_digits) else {
        return None;
    };
    Some((size, root))
}

// The file that the target names.
fn file_of(target: &str) -> Option<Path>
    ensures found { IfSome result (λ path. NamesFile target.now path) }
    ensures none { IfNone result ((path : Path) → ¬ NamesFile target.now path) }
{
    let Some(name) = target.strip_prefix("/") else {
        return None;
    };
    match Path::parse(name) {
        Ok(path) => Some(path),
        Err(_) => None,
    }
}

/// The resource that the target of a request names. The call allocates no memory.
pub fn resource_of(target: &str) -> Option<Resource>
    ensures found { IfSome result (λ resource. Names target.now resource) }
    ensures none { IfNone result ((resource : Resource) → ¬ Names target.now resource) }
{
    if target == "/mirror/status" {
        return Some(Resource::Status);
    }
    if target == "/mirror/forks" {
        return Some(Resource::Forks);
    }
    if let Some(head) = point_in(target) {
        let size = head.0;
        let root = head.1;
        return Some(Resource::Missing { size, root });
    }
    if let Some((size, index)) = numbers_of(target, "/mirror/inclusion/") {
        return Some(Resource::Proof(Ask::Inclusion { size, index }));
    }
    if let Some((first, second)) = numbers_of(target, "/mirror/consistency/") {
        return Some(Resource::Proof(Ask::Consistency { first, second }));
    }
    match file_of(target) {
        Some(path) => Some(Resource::File(path)),
        None => None,
    }
}
