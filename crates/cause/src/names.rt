// The 21 names of causes. The text of each stands once, in a constant; its place is that in the definition's list.
//
// A string is compared with the names of its length, three at most. Rattle copies a constant to the stack where it is used. LLVM makes a few
// comparisons with numbers of a short one, but would copy a table of all names at each use: so each is a constant of its own.
ghost use Rattle.std.specs.Prelude.{◌≡◌, [], ◌+◌, ◌≤◌, ◌<◌, get_or, length};
ghost use Rattle.octets.specs.Bytes.{same, splice};
ghost use Rattle.octets.specs.Put.{Put};
ghost use Rattle.definition.specs.Cause.{names, one_of};
ghost use Rattle.cause.specs.Meaning.{named, place_of};

const CONFIG_APPLY_FAILED: [u8; 19] = *b"config-apply-failed";

const CONFIG_DRIFT_DETECTED: [u8; 21] = *b"config-drift-detected";

const CERTIFICATE_EXPIRING: [u8; 20] = *b"certificate-expiring";

const CERTIFICATE_EXPIRED: [u8; 19] = *b"certificate-expired";

const IDENTITY_UNAVAILABLE: [u8; 20] = *b"identity-unavailable";

const AUTHORIZATION_POLICY_INVALID: [u8; 28] = *b"authorization-policy-invalid";

const SESSION_STORE_UNAVAILABLE: [u8; 25] = *b"session-store-unavailable";

const LEASE_LOST: [u8; 10] = *b"lease-lost";

const BACKEND_TIMEOUT: [u8; 15] = *b"backend-timeout";

const NRF_UNREACHABLE: [u8; 15] = *b"nrf-unreachable";

const SBI_OVERLOAD: [u8; 12] = *b"sbi-overload";

const PEER_UNREACHABLE: [u8; 16] = *b"peer-unreachable";

const PACKET_DROP_THRESHOLD: [u8; 21] = *b"packet-drop-threshold";

const DATAPLANE_PREFLIGHT_FAILED: [u8; 26] = *b"dataplane-preflight-failed";

const STORAGE_CORRUPTION: [u8; 18] = *b"storage-corruption";

const AUDIT_CHAIN_INVALID: [u8; 19] = *b"audit-chain-invalid";

const KEY_UNAVAILABLE: [u8; 15] = *b"key-unavailable";

const LI_DELIVERY_FAILED: [u8; 18] = *b"li-delivery-failed";

const CHARGING_EXPORT_FAILED: [u8; 22] = *b"charging-export-failed";

const PRIVACY_POLICY_VIOLATION: [u8; 24] = *b"privacy-policy-violation";

const SECURITY_BREAK_GLASS: [u8; 20] = *b"security-break-glass";

// Whether s is the text given. All bytes are compared in one loop with one way out: LLVM takes many at a time.
fn is_text(s: &[u8], text: &[u8]) -> bool
    ensures { result ≡ same text.now s.now }
{
    if s.len() != text.len() {
        return false;
    }
    let mut difference = 0;
    for (x, y) in text.iter().zip(s) {
        difference |= *x ^ *y;
    }
    difference == 0
}

// The place k, if s is the text given.
fn place(s: &[u8], text: &[u8], k: usize) -> Option<usize>
    ensures { result ≡ place_of s.now text.now k }
{
    is_text(s, text).then_some(k)
}

// The place of s among the names.
pub(crate) fn name(s: &[u8]) -> Option<usize>
    ensures { named names s.now result }
{
    match s.len() {
        10 => place(s, &LEASE_LOST, 7),
        12 => place(s, &SBI_OVERLOAD, 10),
        15 => place(s, &BACKEND_TIMEOUT, 8)
            .or(place(s, &NRF_UNREACHABLE, 9))
            .or(place(s, &KEY_UNAVAILABLE, 16)),
        16 => place(s, &PEER_UNREACHABLE, 11),
        18 => place(s, &STORAGE_CORRUPTION, 14).or(place(s, &LI_DELIVERY_FAILED, 17)),
        19 => place(s, &CONFIG_APPLY_FAILED, 0)
            .or(place(s, &CERTIFICATE_EXPIRED, 3))
            .or(place(s, &AUDIT_CHAIN_INVALID, 15)),
        20 => place(s, &CERTIFICATE_EXPIRING, 2)
            .or(place(s, &IDENTITY_UNAVAILABLE, 4))
            .or(place(s, &SECURITY_BREAK_GLASS, 20)),
        21 => place(s, &CONFIG_DRIFT_DETECTED, 1).or(place(s, &PACKET_DROP_THRESHOLD, 12)),
        22 => place(s, &CHARGING_EXPORT_FAILED, 18),
        24 => place(s, &PRIVACY_POLICY_VIOLATION, 19),
        25 => place(s, &SESSION_STORE_UNAVAILABLE, 6),
        26 => place(s, &DATAPLANE_PREFLIGHT_FAILED, 13),
        28 => place(s, &AUTHORIZATION_POLICY_INVALID, 5),
        _ => None,
    }
}

// Whether s is one of the names, which is asked of every record at each call. The place, which `name` gives, would cost a call and a choice
// among the names of one length, some 3 to 10 ns a record.
pub(crate) fn is_one(s: &[u8]) -> bool
    ensures { result ≡ one_of names s.now }
{
    match s.len() {
        10 => is_text(s, &LEASE_LOST),
        12 => is_text(s, &SBI_OVERLOAD),
        15 => is_text(s, &BACKEND_TIMEOUT)
            | is_text(s, &NRF_UNREACHABLE)
            | is_text(s, &KEY_UNAVAILABLE),
        16 => is_text(s, &PEER_UNREACHABLE),
        18 => is_text(s, &STORAGE_CORRUPTION) | is_text(s, &LI_DELIVERY_FAILED),
        19 => is_text(s, &CONFIG_APPLY_FAILED)
            | is_text(s, &CERTIFICATE_EXPIRED)
            | is_text(s, &AUDIT_CHAIN_INVALID),
        20 => is_text(s, &CERTIFICATE_EXPIRING)
            | is_text(s, &IDENTITY_UNAVAILABLE)
            | is_text(s, &SECURITY_BREAK_GLASS),
        21 => is_text(s, &CONFIG_DRIFT_DETECTED) | is_text(s, &PACKET_DROP_THRESHOLD),
        22 => is_text(s, &CHARGING_EXPORT_FAILED),
        24 => is_text(s, &PRIVACY_POLICY_VIOLATION),
        25 => is_text(s, &SESSION_STORE_UNAVAILABLE),
        26 => is_text(s, &DATAPLANE_PREFLIGHT_FAILED),
        28 => is_text(s, &AUTHORIZATION_POLICY_INVALID),
        _ => false,
    }
}

// Writes the name at k into buf from at on, and answers where it ends.
pub fn put_name(buf: &mut [u8], at: usize, k: usize) -> usize
    requires { (k < 21) × (at + 28 ≤ length buf.old) }
    ensures { (result ≡ at + length (get_or names k [])) × (buf.new ≡ splice buf.old at (get_or names k [])) }
{
    match k {
        0 => put_text(buf, at, &CONFIG_APPLY_FAILED),
        1 => put_text(buf, at, &CONFIG_DRIFT_DETECTED),
        2 => put_text(buf, at, &CERTIFICATE_EXPIRING),
        3 => put_text(buf, at, &CERTIFICATE_EXPIRED),
        4 => put_text(buf, at, &IDENTITY_UNAVAILABLE),
        5 => put_text(buf, at, &AUTHORIZATION_POLICY_INVALID),
        6 => put_text(buf, at, &SESSION_STORE_UNAVAILABLE),
        7 => put_text(buf, at, &LEASE_LOST),
        8 => put_text(buf, at, &BACKEND_TIMEOUT),
        9 => put_text(buf, at, &NRF_UNREACHABLE),
        10 => put_text(buf, at, &SBI_OVERLOAD),
        11 => put_text(buf, at, &PEER_UNREACHABLE),
        12 => put_text(buf, at, &PACKET_DROP_THRESHOLD),
        13 => put_text(buf, at, &DATAPLANE_PREFLIGHT_FAILED),
        14 => put_text(buf, at, &STORAGE_CORRUPTION),
        15 => put_text(buf, at, &AUDIT_CHAIN_INVALID),
        16 => put_text(buf, at, &KEY_UNAVAILABLE),
        17 => put_text(buf, at, &LI_DELIVERY_FAILED),
        18 => put_text(buf, at, &CHARGING_EXPORT_FAILED),
        19 => put_text(buf, at, &PRIVACY_POLICY_VIOLATION),
        _ => put_text(buf, at, &SECURITY_BREAK_GLASS),
    }
}

// The same, for a text.
fn put_text(buf: &mut [u8], at: usize, text: &[u8]) -> usize
    requires { at + length text.now ≤ length buf.old }
    ensures { Put buf.old at text.now result buf.new }
{
    octets::put_bytes(buf, at, text);
    at + text.len()
}
