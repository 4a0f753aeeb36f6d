//! The description of a message, and where its parts stand.
ghost use Rattle.std.specs.Prelude.{◌≡◌, ◌↔◌, ◌&&◌, IfErr, IfOk, IfSome, IsOk, IsTrue, OnSome};
ghost use Rattle.std.specs.Bool.{OnTrue};
ghost use Rattle.std.specs.Int.{IsPowerOfTwo};

use crate::layout::{SampleLayout, aligned_place};
use crate::type_detail::{TypeDetail, TypeDetailError, TypeVariant};
use iox_names::ZeroCopySend;

/// The description of a message: of its header, its user header and its payload.
#[derive(Clone, Copy, Debug, PartialEq, Eq)]
pub struct MessageTypeDetails {
    /// The header, one value.
    pub header: TypeDetail,
    /// The user header, one value.
    pub user_header: TypeDetail,
    /// An element of the payload, and whether there is one of them or several.
    pub payload: TypeDetail,
}

impl MessageTypeDetails {
    ghost use Rattle.iox_types.specs.Details.{AllShort, detail};
    ghost use Rattle.iox_types.specs.Compatibility.{AreAligned, AreCompatible};
    ghost use Rattle.iox_types.specs.Layouts.{EndsWithinUsize, LaysOut, message_bytes, message_layout, as_usize};
    ghost use Rattle.iox_types.specs.Layouts.{payload_place, user_header_place};
    ghost use Rattle.iox_types.specs.declared.type_detail.TypeVariant.TheVariants.{FixedSize};

    /// The description of a message of these types, with one payload value or several.
    pub fn from<Header: ZeroCopySend, UserHeader: ZeroCopySend, Payload: ZeroCopySend>(
        variant: TypeVariant,
    ) -> Result<MessageTypeDetails, TypeDetailError>
        ensures header { IfOk result (λ it.
            it.header ≡ detail FixedSize Header.name Header.SIZE Header.ALIGNMENT) }
        ensures user_header { IfOk result (λ it. it.user_header
            ≡ detail FixedSize UserHeader.name UserHeader.SIZE UserHeader.ALIGNMENT) }
        ensures payload { IfOk result (λ it.
            it.payload ≡ detail variant Payload.name Payload.SIZE Payload.ALIGNMENT) }
        ensures succeeds { IsOk result ↔ AllShort Header.name UserHeader.name Payload.name }
        ensures refused { IfErr result (λ e. e ≡ TypeDetailError.NameTooLong) }
    {
        Ok(MessageTypeDetails {
            header: TypeDetail::new::<Header>(TypeVariant::FixedSize)?,
            user_header: TypeDetail::new::<UserHeader>(TypeVariant::FixedSize)?,
            payload: TypeDetail::new::<Payload>(variant)?,
        })
    }

    /// Whether messages of these details may be read from places that are laid out by the other's.
    pub fn is_compatible_to(&self, other: &MessageTypeDetails) -> bool
        ensures compatible { IsTrue result ↔ AreCompatible self.now other.now }
        ensures aligned { OnTrue result (AreAligned self.now) }
    {
        self.header.is_compatible_to(&other.header)
            && self.user_header.is_compatible_to(&other.user_header)
            && self.payload.is_compatible_to(&other.payload)
    }

    /// The size and alignment of a message of so many elements; `None` if the size is past
    /// `isize::MAX`.
    pub fn sample_layout(&self, number_of_elements: usize) -> Option<SampleLayout>
        ensures value { result ≡ message_layout self.now number_of_elements }
        ensures aligned { OnSome result (AreAligned self.now) }
        ensures lays_out { IfSome result (λ it. LaysOut self.now number_of_elements it.size) }
    {
        let alignment = self.header.alignment();
        let bytes = self.bytes(number_of_elements)?;
        if bytes > isize::MAX as usize {
            return None;
        }
        let size = aligned_place(bytes, alignment);
        if size > isize::MAX as usize {
            return None;
        }
        Some(SampleLayout { size, alignment })
    }

    /// Where the user header stands, if the header stands at `header`.
    pub fn user_header_ptr_from_header(&self, header: usize) -> usize
        requires { EndsWithinUsize self.now header }
        ensures { result ≡ user_header_place self.now header }
    {
        aligned_place(header + self.header.size(), self.user_header.alignment())
    }

    /// Where the payload stands, if the header stands at `header`.
    pub fn payload_ptr_from_header(&self, header: usize) -> usize
        requires { EndsWithinUsize self.now header }
        ensures { result ≡ payload_place self.now header }
    {
        let user_header = self.user_header_ptr_from_header(header);
        aligned_place(
            user_header + self.user_header.size(),
            self.payload.alignment(),
        )
    }

    /// The bytes that a message of so many elements takes at most, if they fit `usize`.
    fn bytes(&self, number_of_elements: usize) -> Option<usize>
        ensures value { result ≡ as_usize (message_bytes self.now number_of_elements) }
        ensures user_header { IsPowerOfTwo self.now.user_header.alignment }
        ensures payload { IsPowerOfTwo self.now.payload.alignment }
    {
        let before_user_header = self.user_header.alignment() - 1;
        let before_payload = self.payload.alignment() - 1;
        let elements = number_of_elements.checked_mul(self.payload.size())?;
        self.header
            .size()
            .checked_add(self.user_header.size())?
            .checked_add(before_user_header)?
            .checked_add(elements)?
            .checked_add(before_payload)
    }
}
