//! The digests of pages, computed on the calling thread.
ghost use Rattle.std.specs.Prelude.{◌≡◌, map, IfOk};
ghost use Rattle.sha2.specs.Sha256.{sha256};
ghost use Rattle.kc_model.specs.State.{zero_page};
ghost use Rattle.kc_digests.specs.Digests.{digest_of_bytes};
ghost use Rattle.kc_snapshot.specs.Dumping.{digests_of};
ghost use Rattle.kc_snapshot.specs.Form.{in_form};

use crate::form::{StateForm, bytes_in};
use kc_core::KCore;
use kc_digests::zero_digest;
use kc_page::PageBytes;
use kc_types::Memory;
use sha2::{Digest, Sha256};
use std::alloc::Global;

/// The digest of a page; that of a page of zero bytes is given.
fn page_digest(page: &PageBytes, zero: &[u8; 32]) -> [u8; 32]
    requires { zero.now ≡ sha256 zero_page }
    ensures { result ≡ sha256 page.now.bytes }
{
    if page.is_known_zero() {
        *zero
    } else {
        Sha256::digest(page.as_slice())
    }
}

/// Computes the digest of each page, in order. `Memory` if memory runs out.
pub fn bytes_digests_alone(alloc: Global, pages: &[PageBytes]) -> Result<Vec<[u8; 32]>, Memory>
    ensures { IfOk result (λ digests. digests.items ≡ map digest_of_bytes pages.now) }
{
    let zero = zero_digest();
    let mut digests = Vec::with_capacity(alloc, pages.len())?;
    for page in pages {
        digests.push(page_digest(page, &zero))?;
    }
    Ok(digests)
}

/// Computes the digest of each frame's page in a form, in order. `Memory` if memory runs out.
pub(crate) fn frame_digests_alone(
    alloc: Global,
    core: &KCore,
    form: StateForm,
) -> Result<Vec<[u8; 32]>, Memory>
    ensures { IfOk result (λ digests. digests.items ≡ digests_of (in_form form core.now.state)) }
{
    let zero = zero_digest();
    let blank = PageBytes::sparse(alloc);
    let mut digests = Vec::with_capacity(alloc, core.config().frames() as usize)?;
    for number in 0..core.config().frames() {
        let page = bytes_in(core, form, number, &blank);
        digests.push(page_digest(page, &zero))?;
    }
    Ok(digests)
}
