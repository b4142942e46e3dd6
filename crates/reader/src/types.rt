// Which types may be declared.
ghost use Rattle.std.specs.Prelude.{◌≡◌};
ghost use Rattle.reader.specs.Types.{is_bool, class_fits, is_resource, inner_of, resource_for};

use crate::append::unplaced;
use memory::{BlockContext, IdBooks};
use records::{
    Error, ImageClass, ImageDimension, ScalarKind, TypeHandle, TypeInner, VectorSize, expect,
};

// A type as it is declared: the size of a vector is a number, and the base of a binding array an id.
#[derive(Clone, Copy)]
pub enum TypeDeclaration {
    Scalar(ScalarKind),
    Vector {
        size: u32,
        kind: ScalarKind,
    },
    Image {
        dim: ImageDimension,
        arrayed: bool,
        class: ImageClass,
    },
    Sampler,
    BindingArray {
        base: u32,
    },
}

fn is_bool(kind: ScalarKind) -> bool
    ensures { result ≡ is_bool kind }
{
    matches!(kind, ScalarKind::Bool)
}

fn class_fits(class: ImageClass) -> bool
    ensures { result ≡ class_fits class }
{
    match class {
        ImageClass::Sampled { kind, .. } | ImageClass::Storage { kind } => !is_bool(kind),
        ImageClass::Depth { .. } => true,
    }
}

// Textures, samplers and arrays of them.
pub(crate) fn is_resource(ty: TypeInner) -> bool
    ensures { result ≡ is_resource ty }
{
    !matches!(ty, TypeInner::Scalar(_) | TypeInner::Vector { .. })
}

// The type of a variable or argument, and the base of a binding array: an earlier image, sampler or binding array.
pub(crate) fn find_resource<B: IdBooks>(
    ctx: &BlockContext<'_, B>,
    id: u32,
) -> Result<TypeHandle, Error>
    ensures { result ≡ resource_for ctx.now.lists.types.now (B.shelf ctx.now.books.now) id }
{
    let found = ctx.find_type(unplaced(id))?;
    expect(is_resource(found.inner), Error::InvalidType(0))?;
    Ok(found.handle)
}

// The type that is declared.
pub(crate) fn declared_inner<B: IdBooks>(
    ctx: &BlockContext<'_, B>,
    declaration: TypeDeclaration,
) -> Result<TypeInner, Error>
    ensures { result ≡ inner_of ctx.now.lists.types.now (B.shelf ctx.now.books.now) declaration }
{
    match declaration {
        TypeDeclaration::Scalar(kind) => Ok(TypeInner::Scalar(kind)),
        TypeDeclaration::Vector { size, kind } => {
            let size = VectorSize::try_from(size).map_err(|_| Error::InvalidType(0))?;
            Ok(TypeInner::Vector { size, kind })
        }
        TypeDeclaration::Image {
            dim,
            arrayed,
            class,
        } => {
            expect(class_fits(class), Error::InvalidType(0))?;
            Ok(TypeInner::Image {
                dim,
                arrayed,
                class,
            })
        }
        TypeDeclaration::Sampler => Ok(TypeInner::Sampler),
        TypeDeclaration::BindingArray { base } => {
            let base = find_resource(ctx, base)?;
            Ok(TypeInner::BindingArray { base })
        }
    }
}
