// Signs and words, as texts write them.
use fut_ast::{End, Oper};
use fut_scalar::{BinOp, IntType, ScalarType};

/// The suffix of an integer, or nothing. Rows compare it with what is written, so no clause says it.
pub fn suffix_text(suffix: Option<IntType>) -> &'static str {
    match suffix {
        None => "",
        Some(ty) => int_text(ty),
    }
}

/// The name of an integer type.
pub fn int_text(ty: IntType) -> &'static str {
    match ty {
        IntType::I8 => "i8",
        IntType::I16 => "i16",
        IntType::I32 => "i32",
        IntType::I64 => "i64",
        IntType::U8 => "u8",
        IntType::U16 => "u16",
        IntType::U32 => "u32",
        IntType::U64 => "u64",
    }
}

/// The name of a scalar type.
pub fn scalar_text(ty: ScalarType) -> &'static str {
    match ty {
        ScalarType::Int(ty) => int_text(ty),
        ScalarType::Bool => "bool",
    }
}

pub fn bin_text(op: BinOp) -> &'static str {
    match op {
        BinOp::Add => "+",
        BinOp::Sub => "-",
        BinOp::Mul => "*",
        BinOp::Div => "/",
        BinOp::Mod => "%",
        BinOp::Quot => "//",
        BinOp::Rem => "%%",
        BinOp::Pow => "**",
        BinOp::And => "&",
        BinOp::Or => "|",
        BinOp::Xor => "^",
        BinOp::Shl => "<<",
        BinOp::Shr => ">>",
        BinOp::Eq => "==",
        BinOp::Ne => "!=",
        BinOp::Lt => "<",
        BinOp::Le => "<=",
        BinOp::Gt => ">",
        BinOp::Ge => ">=",
        BinOp::Min => "min",
        BinOp::Max => "max",
    }
}

pub fn oper_text(oper: Oper) -> &'static str {
    match oper {
        Oper::Bin(op) => bin_text(op),
        Oper::Neg => "neg",
        Oper::Not => "!",
        Oper::Then => ">->",
        Oper::After => "<-<",
    }
}

pub fn end_text(end: End) -> &'static str {
    match end {
        End::Below => "..<",
        End::Above => "..>",
        End::Through => "...",
    }
}
