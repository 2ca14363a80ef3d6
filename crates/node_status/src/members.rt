//! Reads the members of an object within a status.
use crate::error::StatusError;
use crate::member::Member;
use node_names::NodeName;
use serde_json::Value;
use std::net::SocketAddr;

/// The value of a member.
pub(crate) fn member(object: &Value, member: Member) -> Result<&Value, StatusError> {
    match object.get(member.key()) {
        Some(value) => Ok(value),
        None => Err(StatusError::Missing(member)),
    }
}

/// A member that is an object.
pub(crate) fn object(object: &Value, name: Member) -> Result<&Value, StatusError> {
    let value = member(object, name)?;
    if value.is_object() {
        Ok(value)
    } else {
        Err(StatusError::WrongKind(name))
    }
}

/// A member that is a list.
pub(crate) fn list(object: &Value, name: Member) -> Result<&[Value], StatusError> {
    match member(object, name)?.as_array() {
        Some(list) => Ok(list.as_slice()),
        None => Err(StatusError::WrongKind(name)),
    }
}

/// A member that is a number.
pub(crate) fn number(object: &Value, name: Member) -> Result<u64, StatusError> {
    match member(object, name)?.as_u64() {
        Some(number) => Ok(number),
        None => Err(StatusError::WrongKind(name)),
    }
}

/// A member that is a number, or `null`, or is not there, as in the status of a node that does not tell it.
pub(crate) fn number_if_known(object: &Value, name: Member) -> Result<Option<u64>, StatusError> {
    match object.get(name.key()) {
        Some(value) if !value.is_null() => Ok(Some(number(object, name)?)),
        _ => Ok(None),
    }
}

/// A member that is a number of things.
pub(crate) fn count(object: &Value, name: Member) -> Result<usize, StatusError> {
    Ok(number(object, name)? as usize)
}

/// A member that is `true` or `false`.
pub(crate) fn truth(object: &Value, name: Member) -> Result<bool, StatusError> {
    match member(object, name)?.as_bool() {
        Some(truth) => Ok(truth),
        None => Err(StatusError::WrongKind(name)),
    }
}

/// A member that is the name of a node.
pub(crate) fn node_name(object: &Value, name: Member) -> Result<NodeName, StatusError> {
    name_of(member(object, name)?, name)
}

/// A member that is an address.
pub(crate) fn address(object: &Value, name: Member) -> Result<SocketAddr, StatusError> {
    address_of(member(object, name)?, name)
}

/// A member that is an address, or `null`.
pub(crate) fn address_if_known(
    object: &Value,
    name: Member,
) -> Result<Option<SocketAddr>, StatusError> {
    let value = member(object, name)?;
    if value.is_null() {
        return Ok(None);
    }
    Ok(Some(address_of(value, name)?))
}

/// The node's name that a value of the member is.
pub(crate) fn name_of(value: &Value, member: Member) -> Result<NodeName, StatusError> {
    let Some(text) = value.as_str() else {
        return Err(StatusError::WrongKind(member));
    };
    match NodeName::parse(text.as_bytes()) {
        Ok(name) => Ok(name),
        Err(_) => Err(StatusError::NotAllowed(member)),
    }
}

/// The address that a value of the member is.
fn address_of(value: &Value, member: Member) -> Result<SocketAddr, StatusError> {
    let Some(text) = value.as_str() else {
        return Err(StatusError::WrongKind(member));
    };
    match SocketAddr::parse_ascii(text.as_bytes()) {
        Ok(address) => Ok(address),
        Err(_) => Err(StatusError::NotAllowed(member)),
    }
}
