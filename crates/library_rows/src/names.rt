use ll_tree::{BinKind, CastKind, Flags, Pred};

const PLAIN: Flags = Flags {
    nuw: false,
    nsw: false,
    exact: false,
    nneg: false,
    samesign: false,
    disjoint: false,
};

// `others` are all flags but `nuw` and `nsw`. The `nsw` of `abs` is that its least number gives poison.
pub fn flags_of(word: &str) -> Option<Flags> {
    match word {
        "plain" => Some(PLAIN),
        "nuw" => Some(Flags { nuw: true, ..PLAIN }),
        "nsw" => Some(Flags { nsw: true, ..PLAIN }),
        "others" => Some(Flags {
            nuw: false,
            nsw: false,
            exact: true,
            nneg: true,
            samesign: true,
            disjoint: true,
        }),
        _ => None,
    }
}

pub fn bin_kind(word: &str) -> Option<BinKind> {
    match word {
        "add" => Some(BinKind::Add),
        "sub" => Some(BinKind::Sub),
        "mul" => Some(BinKind::Mul),
        "shl" => Some(BinKind::Shl),
        "lshr" => Some(BinKind::Lshr),
        "ashr" => Some(BinKind::Ashr),
        "and" => Some(BinKind::And),
        "or" => Some(BinKind::Or),
        "xor" => Some(BinKind::Xor),
        "udiv" => Some(BinKind::Udiv),
        "sdiv" => Some(BinKind::Sdiv),
        "urem" => Some(BinKind::Urem),
        "srem" => Some(BinKind::Srem),
        "smin" => Some(BinKind::Smin),
        "smax" => Some(BinKind::Smax),
        "umin" => Some(BinKind::Umin),
        "umax" => Some(BinKind::Umax),
        _ => None,
    }
}

pub fn pred(word: &str) -> Option<Pred> {
    match word {
        "eq" => Some(Pred::Eq),
        "ne" => Some(Pred::Ne),
        "ugt" => Some(Pred::Ugt),
        "uge" => Some(Pred::Uge),
        "ult" => Some(Pred::Ult),
        "ule" => Some(Pred::Ule),
        "sgt" => Some(Pred::Sgt),
        "sge" => Some(Pred::Sge),
        "slt" => Some(Pred::Slt),
        "sle" => Some(Pred::Sle),
        _ => None,
    }
}

pub fn cast_kind(word: &str) -> Option<CastKind> {
    match word {
        "zext" => Some(CastKind::Zext),
        "sext" => Some(CastKind::Sext),
        "trunc" => Some(CastKind::Trunc),
        _ => None,
    }
}
