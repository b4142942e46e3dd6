// Expression records: a struct with a tag, whose unused parts have one fixed value, so that equal records are equal.
ghost use Rattle.std.specs.Prelude.{◌≡◌};
ghost use Rattle.records.specs.Expressions.{global_variable, function_argument, constant_of, supplied, access, access_index, compose, splat, swizzle, divide, round, cast, image_sample, image_load, with_result};

use crate::handles::{
    ConstantHandle, ExpressionHandle, FunctionArgumentHandle, GlobalVariableHandle, TypeHandle,
};
use crate::types::VectorSize;

#[derive(Clone, Copy)]
pub enum SwizzleComponent {
    X,
    Y,
    Z,
    W,
}

#[derive(Clone, Copy)]
pub enum SampleLevel {
    Auto,
    Zero,
    Exact(ExpressionHandle),
    Bias(ExpressionHandle),
    Gradient {
        x: ExpressionHandle,
        y: ExpressionHandle,
    },
}

#[derive(Clone, Copy)]
pub enum ExpressionTag {
    GlobalVariable,
    FunctionArgument,
    Constant,
    // a brought value
    Supplied,
    Access,
    AccessIndex,
    Compose,
    Splat,
    Swizzle,
    // Binary with Divide
    Divide,
    // Math with Round
    Round,
    // As to a Sint of 4 bytes
    As,
    ImageSample,
    ImageLoad,
}

// What an ImageSample or ImageLoad has besides its image and sampler.
#[derive(Clone, Copy)]
pub struct ImageParts {
    pub coordinate: ExpressionHandle,
    pub array_index: Option<ExpressionHandle>,
    pub gather: Option<SwizzleComponent>,
    pub offset: Option<ExpressionHandle>,
    // the level of a sample
    pub level: SampleLevel,
    pub depth_ref: Option<ExpressionHandle>,
    // the sample index and the level of a load
    pub sample: Option<ExpressionHandle>,
    pub lod: Option<ExpressionHandle>,
}

#[derive(Clone, Copy)]
pub struct Expression {
    pub tag: ExpressionTag,
    // the type that the value has to have, where an instruction states one
    pub result: Option<TypeHandle>,
    pub variable: GlobalVariableHandle,
    pub argument: FunctionArgumentHandle,
    pub constant: ConstantHandle,
    // the type of a brought value, or of the vector that a Compose makes
    pub ty: TypeHandle,
    // the base of Access and AccessIndex, the value of Splat, the vector of Swizzle, the left of Divide, what Round
    // and As take, the image of ImageSample and ImageLoad
    pub base: ExpressionHandle,
    // the index of Access, the right of Divide, the sampler of ImageSample
    pub other: ExpressionHandle,
    // the component of AccessIndex, the number of the input of a brought value
    pub index: u32,
    // the size of Splat, Swizzle and Compose
    pub size: VectorSize,
    pub components: [ExpressionHandle; 4],
    pub pattern: [SwizzleComponent; 4],
    pub image: ImageParts,
}

const NOTHING: ExpressionHandle = ExpressionHandle { index: 0 };

impl ImageParts {
    pub const BLANK: ImageParts = ImageParts {
        coordinate: NOTHING,
        array_index: None,
        gather: None,
        offset: None,
        level: SampleLevel::Auto,
        depth_ref: None,
        sample: None,
        lod: None,
    };
}

impl Expression {
    const BLANK: Expression = Expression {
        tag: ExpressionTag::GlobalVariable,
        result: None,
        variable: GlobalVariableHandle { index: 0 },
        argument: FunctionArgumentHandle { index: 0 },
        constant: ConstantHandle { index: 0 },
        ty: TypeHandle { index: 0 },
        base: NOTHING,
        other: NOTHING,
        index: 0,
        size: VectorSize::Bi,
        components: [NOTHING; 4],
        pattern: [SwizzleComponent::X; 4],
        image: ImageParts::BLANK,
    };

    pub fn global_variable(variable: GlobalVariableHandle) -> Expression
        ensures { result ≡ global_variable variable }
    {
        Expression {
            tag: ExpressionTag::GlobalVariable,
            variable,
            ..Expression::BLANK
        }
    }

    pub fn function_argument(argument: FunctionArgumentHandle) -> Expression
        ensures { result ≡ function_argument argument }
    {
        Expression {
            tag: ExpressionTag::FunctionArgument,
            argument,
            ..Expression::BLANK
        }
    }

    pub fn constant(constant: ConstantHandle) -> Expression
        ensures { result ≡ constant_of constant }
    {
        Expression {
            tag: ExpressionTag::Constant,
            constant,
            ..Expression::BLANK
        }
    }

    // The value of an input by its number, counted from 0 over all values brought.
    pub fn supplied(ty: TypeHandle, input: u32) -> Expression
        ensures { result ≡ supplied ty input }
    {
        Expression {
            tag: ExpressionTag::Supplied,
            ty,
            index: input,
            ..Expression::BLANK
        }
    }

    pub fn access(base: ExpressionHandle, index: ExpressionHandle) -> Expression
        ensures { result ≡ access base index }
    {
        Expression {
            tag: ExpressionTag::Access,
            base,
            other: index,
            ..Expression::BLANK
        }
    }

    pub fn access_index(base: ExpressionHandle, index: u32) -> Expression
        ensures { result ≡ access_index base index }
    {
        Expression {
            tag: ExpressionTag::AccessIndex,
            base,
            index,
            ..Expression::BLANK
        }
    }

    // Of as many components as the size says; the others are blank.
    pub fn compose(
        ty: TypeHandle,
        size: VectorSize,
        components: [ExpressionHandle; 4],
    ) -> Expression
        ensures { result ≡ compose ty size components }
    {
        Expression {
            tag: ExpressionTag::Compose,
            ty,
            size,
            components,
            ..Expression::BLANK
        }
    }

    pub fn splat(size: VectorSize, value: ExpressionHandle) -> Expression
        ensures { result ≡ splat size value }
    {
        Expression {
            tag: ExpressionTag::Splat,
            size,
            base: value,
            ..Expression::BLANK
        }
    }

    pub fn swizzle(
        size: VectorSize,
        vector: ExpressionHandle,
        pattern: [SwizzleComponent; 4],
    ) -> Expression
        ensures { result ≡ swizzle size vector pattern }
    {
        Expression {
            tag: ExpressionTag::Swizzle,
            size,
            base: vector,
            pattern,
            ..Expression::BLANK
        }
    }

    pub fn divide(left: ExpressionHandle, right: ExpressionHandle) -> Expression
        ensures { result ≡ divide left right }
    {
        Expression {
            tag: ExpressionTag::Divide,
            base: left,
            other: right,
            ..Expression::BLANK
        }
    }

    pub fn round(arg: ExpressionHandle) -> Expression
        ensures { result ≡ round arg }
    {
        Expression {
            tag: ExpressionTag::Round,
            base: arg,
            ..Expression::BLANK
        }
    }

    pub fn cast(expr: ExpressionHandle) -> Expression
        ensures { result ≡ cast expr }
    {
        Expression {
            tag: ExpressionTag::As,
            base: expr,
            ..Expression::BLANK
        }
    }

    pub fn image_sample(
        image: ExpressionHandle,
        sampler: ExpressionHandle,
        parts: ImageParts,
    ) -> Expression
        ensures { result ≡ image_sample image sampler parts }
    {
        Expression {
            tag: ExpressionTag::ImageSample,
            base: image,
            other: sampler,
            image: parts,
            ..Expression::BLANK
        }
    }

    pub fn image_load(image: ExpressionHandle, parts: ImageParts) -> Expression
        ensures { result ≡ image_load image parts }
    {
        Expression {
            tag: ExpressionTag::ImageLoad,
            base: image,
            image: parts,
            ..Expression::BLANK
        }
    }

    // The same record, whose value has to be of a type.
    pub fn with_result(self, ty: TypeHandle) -> Expression
        ensures { result ≡ with_result ty self }
    {
        Expression {
            result: Some(ty),
            ..self
        }
    }
}
