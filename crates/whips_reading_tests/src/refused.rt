//! How a refusal is compared.
use std::alloc::Global;
use whips_reading::{Code, ReadErr, Refusal};

/// Whether the place of the refusal is this text.
fn is_at(alloc: Global, refusal: &Refusal, place: &str) -> bool {
    match refusal.place_text(alloc) {
        Ok(text) => text.as_str() == place,
        Err(_) => false,
    }
}

/// Whether the error is the refusal with this code, at this place.
pub fn is_refused(alloc: Global, error: &ReadErr, code: Code, place: &str) -> bool {
    match error {
        ReadErr::Refused(refusal) => (refusal.code() == code) & is_at(alloc, refusal, place),
        ReadErr::NoMemory => false,
    }
}
