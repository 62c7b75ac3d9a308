//! The words of operators and specifiers.

use c_ast::{AssignOp, BinaryOp, PrefixOp, Qualifier, Storage, TypeWord};

pub(super) fn storage_word(storage: Storage) -> &'static str {
    match storage {
        Storage::Typedef => "typedef",
        Storage::Extern => "extern",
        Storage::Static => "static",
        Storage::Auto => "auto",
        Storage::Register => "register",
        Storage::Inline => "inline",
    }
}

pub(super) fn qualifier_word(qualifier: Qualifier) -> &'static str {
    match qualifier {
        Qualifier::Const => "const",
        Qualifier::Volatile => "volatile",
        Qualifier::Restrict => "restrict",
    }
}

pub(super) fn type_word(word: TypeWord) -> &'static str {
    match word {
        TypeWord::Void => "void",
        TypeWord::Char => "char",
        TypeWord::Short => "short",
        TypeWord::Int => "int",
        TypeWord::Long => "long",
        TypeWord::Signed => "signed",
        TypeWord::Unsigned => "unsigned",
    }
}

pub(super) fn prefix_word(op: PrefixOp) -> &'static str {
    match op {
        PrefixOp::Increment => "++",
        PrefixOp::Decrement => "--",
        PrefixOp::Address => "&",
        PrefixOp::Deref => "*",
        PrefixOp::Plus => "+",
        PrefixOp::Minus => "-",
        PrefixOp::Complement => "~",
        PrefixOp::Not => "!",
    }
}

pub(super) fn binary_word(op: BinaryOp) -> &'static str {
    match op {
        BinaryOp::Or => "||",
        BinaryOp::And => "&&",
        BinaryOp::BitOr => "|",
        BinaryOp::BitXor => "^",
        BinaryOp::BitAnd => "&",
        BinaryOp::Equal => "==",
        BinaryOp::NotEqual => "!=",
        BinaryOp::Less => "<",
        BinaryOp::Greater => ">",
        BinaryOp::AtMost => "<=",
        BinaryOp::AtLeast => ">=",
        BinaryOp::ShiftLeft => "<<",
        BinaryOp::ShiftRight => ">>",
        BinaryOp::Add => "+",
        BinaryOp::Subtract => "-",
        BinaryOp::Multiply => "*",
        BinaryOp::Divide => "/",
        BinaryOp::Remainder => "%",
    }
}

pub(super) fn assign_word(op: AssignOp) -> &'static str {
    match op {
        AssignOp::Set => "=",
        AssignOp::Multiply => "*=",
        AssignOp::Divide => "/=",
        AssignOp::Remainder => "%=",
        AssignOp::Add => "+=",
        AssignOp::Subtract => "-=",
        AssignOp::ShiftLeft => "<<=",
        AssignOp::ShiftRight => ">>=",
        AssignOp::BitAnd => "&=",
        AssignOp::BitXor => "^=",
        AssignOp::BitOr => "|=",
    }
}
